//! Tests of pools.

mod clears;
mod exact;
mod example;
pub(crate) mod excerpts;
mod faults;
mod gathering;
mod gets;
mod many;
mod masks;
mod memory;
mod opening;
mod outputs;
mod reserved;
mod resizing;
mod slots;
mod tells;
mod threads;
mod waits;
