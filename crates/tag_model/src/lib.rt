//! The model of a tag allocator: one map from tags to places, and a list of events by any callers.
#![tactic(auto)]

mod entries;
mod event;
mod laws;
mod masks;
mod place;
mod totals;
mod world;

pub use event::{Event, EventFault};
pub use laws::{held_tags_stay, runs_balance, runs_join};
pub use place::Place;
pub use totals::Totals;
pub use world::{MAX_CALLERS, MOST_WON, ModelFault, World};
