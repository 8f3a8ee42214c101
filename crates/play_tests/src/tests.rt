//! Worked examples, refusals, and want of memory.
mod device;
mod runs;
mod script;
