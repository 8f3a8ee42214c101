//! Charges completions in batches and wakes waiters in eight groups, over tables of atomic words.
#![tactic(auto)]

mod book;
mod book_closing;
mod book_opening;
mod book_plays;
mod charge;
mod fault;
mod grants;
mod group_plays;
mod groups;
mod groups_closing;
mod groups_opening;
mod rings;
mod sighting;
mod sleeping;
mod spacing;
mod steps;
mod waiting;
mod waking;
mod walk;

pub use book::{Book, BookTotals, Teller, TellerGathering};
pub use book_closing::BookGatherFault;
pub use book_opening::MAX_CAP;
pub use charge::Charge;
pub use fault::BookFault;
pub use grants::{Grants, NO_GRANTS};
pub use groups::{GroupTotals, Groups, Waiter, WaiterGathering};
pub use groups_closing::GroupsGatherFault;
pub use rings::Rung;
pub use sighting::Sighting;
pub use sleeping::{Announcement, Key};
pub use step_ledger::{GatherCause, Numbered};
pub use waiting::Left;
pub use waking::{Count, Report, Ring, Waking};
