//! Worked examples, refusals, want of memory, and threads.
mod allocator;
mod answers;
mod cache;
mod calls;
mod crowd;
mod jobs;
mod pool;
mod queue;
mod shared;
mod stage;
mod steps;
mod tally;
mod threads;
mod totals;
