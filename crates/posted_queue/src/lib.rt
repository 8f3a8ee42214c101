//! Queues of posted tags over a pool: first come, first served, and a hand may sleep until one comes.
#![tactic(auto)]

mod assigned;
mod fault;
mod gather;
mod laws;
mod line;
mod nexts;
mod opens;
mod queue;
mod submits;
mod waits;

pub use fault::SubmitFault;
pub use gather::{PostedGatherCause, PostedGatherFault};
pub use laws::{first_come_first_served, nobody_sleeps_beside_a_queued_tag};
pub use nexts::Popped;
pub use queue::{PostedHand, PostedQueue};
pub use submits::Submitted;
pub use waits::Round;

#[cfg(test)]
mod tests;
