//! Clients of the library whose last lines can be reached. An edit claims of each that it cannot.
#![tactic(auto)]

pub mod over_caches;
pub mod over_maps;
pub mod over_pools;
