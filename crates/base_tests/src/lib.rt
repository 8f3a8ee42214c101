//! The tests of the crates on which a queue stands: layouts, the model, the map, the search, and wakeups.
#![tactic(auto)]

#[cfg(test)]
mod tests;
