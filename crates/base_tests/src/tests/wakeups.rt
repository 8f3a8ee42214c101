//! Worked examples, threads that wait and wake, and refusals.
mod book;
mod groups;
mod memory;
mod rings;
mod sleeps;
mod threads;
