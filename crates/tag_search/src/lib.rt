//! The search for free tags, written once over a port to the words.
#![tactic(auto)]

mod all_places;
mod batch;
mod choosing;
mod found;
mod hint;
mod laws;
pub mod on_map;
mod pass;
mod place;
mod plain;
mod plain_steps;
mod port;
mod rank;
mod scan;
mod search;
mod shared;

pub use found::Found;
pub use hint::{Hint, after_clear};
pub use laws::{alone_batches_choose, alone_gets_choose};
pub use plain::PlainPort;
pub use port::Port;
pub use search::{Unfinished, get, get_batch, get_shallow};
pub use shared::Shared;
