//! What a member's seat knows. These types exist only for proofs: no value of them is ever made.
use std::snapshot::Snapshot;

/// What one member did on the table. Clauses see an array as a list of any length, so `[T; 0]` stands for any list.
pub struct Record<T> {
    /// The member's number, from 0.
    pub number: u64,
    /// Its own steps, newest first.
    pub steps: [T; 0],
}

/// The records in one seat's view: one while its member runs, several while members are handed out or gathered. `P` is
/// what the table keeps of a member.
pub struct View<P> {
    pub records: Snapshot<[P; 0]>,
}

/// A view of records that have a number and steps, and nothing else.
pub type Records<T> = View<Record<T>>;
