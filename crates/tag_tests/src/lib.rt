//! The tests of pools and caches, and of the waits in groups of queues. They offer their callers the same calls, so what the
//! tests need is here once.
#![tactic(auto)]

mod caller;
#[cfg(test)]
mod tests;
