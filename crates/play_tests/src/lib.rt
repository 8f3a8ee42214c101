//! The tests of the crates on which `tagplay` stands: scripts and the device.
#![tactic(auto)]

#[cfg(test)]
mod tests;
