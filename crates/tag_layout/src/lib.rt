//! How the numbers of tags are laid out in words of bits.
#![tactic(auto)]

mod batch;
mod bits;
mod layout;
mod shallow;

pub use bits::first_clear;
pub use layout::{Layout, LayoutFault, MAX_DEPTH, MAX_SHIFT};
