//! Worked examples, refusals, want of memory, and threads.
mod layout;
mod map;
mod model;
mod search;
mod totals;
mod wakeups;
