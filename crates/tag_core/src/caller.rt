//! A caller of a map.
ghost use Rattle.std.specs.Prelude.{◌≡◌, ◌≤◌, ◌*◌, length, replicate};
ghost use Rattle.step_ledger.specs.Views.{own_view};
ghost use Rattle.tag_layout.specs.Layout.{words};
ghost use Rattle.tag_model.specs.declared.world.TheConstants.{MOST_WON, MAX_CALLERS};
ghost use Rattle.tag_core.specs.declared.record.Record.{Record};
ghost use Rattle.tag_core.specs.Meeting.{HasHistory};
ghost use Rattle.tag_core.specs.Records.{Carries};
ghost use Rattle.tag_core.specs.Spacing.{state_at};
ghost use Rattle.tag_core.specs.Views.{steps_of};

use crate::record::View;
use crate::shape::Shape;
use atomic_table::Seat;
use std::snapshot::Snapshot;
use step_ledger::Numbered;
use tag_layout::Layout;

/// Words of padding, 8 bytes each, behind what one caller alone writes.
pub(crate) const APART: usize = 16;

/// One of a map's callers, which alone change it. If a caller is dropped, its tags stay held for ever.
#[derive(Drop)]
pub struct Caller<R> {
    /// What it makes steps with. The view has this caller's record, and the seat the slots of its tags, in order.
    pub(crate) seat: Seat<R, View<R>>,
    /// The layout of its map.
    pub(crate) layout: Layout,
    /// The index of the first tag's state in the table, so that no access to a slot computes the number of words.
    pub(crate) states: u32,
    /// Its number, from 0.
    pub(crate) number: u32,
    /// The most tags that it may ever win, at most 2^48.
    pub(crate) life: u64,
    /// The tags that it holds, a mask for each word: 1 is held.
    pub(crate) held: Vec<u64>,
    /// Number of tags won so far, at most `life`.
    pub(crate) won: u64,
    /// Number of tags put or given back so far, including tags taken from others.
    pub(crate) back: u64,
    /// The shape of its map, as contracts see it.
    pub(crate) shape: Snapshot<Shape>,
    /// Padding, never read: callers that are adjacent in memory are 128 bytes apart, so the steps of one do not slow
    /// another down.
    pub(crate) apart: [u64; APART],
    ghost told: { (layout ≡ shape.value.layout) × (life ≡ shape.value.life) × (states ≡ state_at layout 0) },
    ghost knows: { seat.me.0 ≡ own_view (record {
      shape = shape.value;
      number = number;
      held = held.items;
      swept = replicate (words shape.value.layout) 0;
      won = won;
      back = back;
      steps = steps_of seat.me.0;
    }) },
    ghost shown: { (r : Record R) → seat.me.0 ≡ own_view r → ∥ HasHistory shape.value r ∥₁ },
    ghost carries: { Carries shape.value.layout held.items seat.me.1 },
    ghost wide: { length held.items ≡ words shape.value.layout },
    ghost unspent: { (won ≤ life) × (life ≤ MOST_WON) },
    ghost few_back: { back ≤ MAX_CALLERS * MOST_WON },
}

impl<R> Numbered for Caller<R> {
    ghost number_of = { λ caller. caller.number };

    fn number(&self) -> u32 {
        self.number
    }
}

impl<R> Caller<R> {
    ghost use Rattle.tag_core.specs.Callers.{record_of};

    /// Number of tags that this caller has won so far, at most its life. No step.
    pub fn won(&self) -> u64
        ensures value { result ≡ (record_of self.now).won }
        ensures within { result ≤ MOST_WON }
    {
        self.won
    }

    /// Number of tags that this caller has put or given back so far, including tags that it took from others. No step.
    pub fn back(&self) -> u64
        ensures { result ≡ (record_of self.now).back }
    {
        self.back
    }
}
