//! What contracts know of a caller. No such value is ever made.
use crate::shape::Shape;
use crate::step::Step;
use std::marker::Model;
use std::snapshot::Snapshot;

/// What is known of one caller. A clause reads each array as a list of any length.
pub struct Record<R> {
    /// The shape of its map.
    pub shape: Shape,
    /// Its number.
    pub number: u32,
    /// The tags that it holds, a mask for each word: 1 is held.
    pub held: [u64; 0],
    /// What it swept and has not freed yet, a mask for each word: 1 is swept.
    pub swept: [u64; 0],
    /// Tags that it has won.
    pub won: u64,
    /// Tags that it has put or given back.
    pub back: u64,
    /// Its own steps on this map, the newest first.
    pub steps: [Step<R>; 0],
}

/// The records that a seat of the table has: one while its caller runs. Contracts see a view of `step_ledger`.
pub struct View<R> {
    records: Snapshot<[Record<R>; 0]>,
}

impl<R> Model for View<R> {
    ghost use Rattle.step_ledger.specs.Views.{viewing};
    ghost use Rattle.tag_core.specs.declared.record.Record.{Record};
    ghost use Rattle.step_ledger.specs.declared.record.View as ledger;

    ghost Value = { ledger.View (Record R) };

    ghost view = { λ v. viewing v.records.value };
}
