//! Worked examples, refusals, want of memory, and threads.
pub(crate) mod callers;
mod calls;
mod gathering;
mod memory;
mod opening;
mod reopening;
mod resizing;
mod resizing_threads;
mod stage;
mod steps;
mod threads;
