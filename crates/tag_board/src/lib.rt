//! The world of a script over shared tags: the answer of each command of each caller, and the state after it.
#![tactic(auto)]

mod board;
mod clears;
mod closing;
mod exclusion;
mod gets;
mod looks;
mod opens;
mod posts;
mod resizes;
#[cfg(test)]
mod tests;
mod waits;

pub use board::Board;
