//! A map of tags that callers share without a lock, under a rule: between any two steps, each tag is in exactly one
//! place.
#![tactic(auto)]

mod bell;
mod bell_step;
mod berth;
mod caller;
mod claims;
mod clears;
mod closed;
mod gather;
mod kept;
mod loans;
mod looks;
mod map;
mod meets;
mod opens;
mod plays;
mod posts;
mod record;
mod reopens;
mod settled;
mod settles;
mod shape;
mod sleeps;
mod slots;
mod spots;
mod step;
mod sweeps;
mod together;
mod word_held;
mod word_step;

pub use bell::Unroused;
pub use bell_step::BellStep;
pub use berth::{Berth, TURNS, Waiter};
pub use caller::Caller;
pub use claims::{Claim, Spent};
pub use closed::{Closed, GatherFault};
pub use kept::Kept;
pub use loans::{Lender, Loans};
pub use map::Map;
pub use opens::OpenFault;
pub use posts::MOST_NOTE;
pub use record::{Record, View};
pub use settled::Settled;
pub use shape::Shape;
pub use sleeps::Roused;
pub use step::Step;
pub use step_ledger::GatherCause;
pub use together::Gathering;
pub use word_step::WordStep;
