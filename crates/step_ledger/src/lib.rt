//! Members that make steps on one table: each keeps the list of its own steps, and all the lists together form one
//! history.
#![tactic(auto)]

mod gather;
mod numbered;
mod passing;
mod record;
mod source;

pub use gather::{Gather, gather_each};
pub use numbered::{GatherCause, Numbered, all_there, index_of, least_missing};
pub use passing::{Collect, HandOut};
pub use record::{Record, Records, View};
pub use source::{MemberSource, hand_out};
