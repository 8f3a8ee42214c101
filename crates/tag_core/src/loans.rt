//! Callers that lend their records, one after another, and then go on unchanged. They may be parts of larger values.
ghost use Rattle.std.specs.Prelude.{◌≡◌, [], ◌∷◌};
ghost use Rattle.step_ledger.specs.Views.{viewing, rest_of};
ghost use Rattle.step_ledger.specs.Gather.{HasAll};

use crate::caller::{APART, Caller};
use crate::map::Map;
use crate::plays::{Settling, SettlingWaiters};
use crate::record::View;
use crate::shape::Shape;
use crate::spots::{SPARE, first_state, waiters_spot};
use crate::together::Gathering;
use atomic_table::Seat;
use std::snapshot::Snapshot;
use step_ledger::{Collect, HandOut};
use tag_layout::Layout;
use tag_model::Totals;

/// A caller that has lent its record. It makes no step until the record is returned; it keeps the slots of its tags.
#[derive(Drop)]
pub struct Lender<R> {
    pub(crate) seat: Seat<R, View<R>>,
    pub(crate) layout: Layout,
    pub(crate) number: u32,
    pub(crate) life: u64,
    pub(crate) held: Vec<u64>,
    pub(crate) won: u64,
    pub(crate) back: u64,
    pub(crate) shape: Snapshot<Shape>,
    pub(crate) apart: [u64; APART],
    /// The caller before it lent its record, as contracts see it.
    pub(crate) was: Snapshot<Caller<R>>,
    ghost lent: { (seat.me ≡ (viewing [], was.value.seat.me.1)) × (seat.table_id ≡ was.value.seat.table_id) },
    ghost same: { (layout ≡ was.value.layout) × (number ≡ was.value.number) × (life ≡ was.value.life)
        × (held.items ≡ was.value.held.items) × (won ≡ was.value.won) × (back ≡ was.value.back)
        × (shape.value ≡ was.value.shape.value) },
}

/// The records of all callers of a map, so that nobody else acts on it. A clause sees the list of them, the latest
/// first.
#[derive(Drop)]
pub struct Loans<R> {
    pub(crate) seat: Seat<R, View<R>>,
    ghost empty: { seat.me.1 ≡ [] },
}

impl<R> Gathering<R> {
    ghost use Rattle.tag_core.specs.Gathering.{IsGatheringOf, gathered, numbers};
    ghost use Rattle.tag_core.specs.Lending.{lent, AreLoansOf, BeginsWith};
    ghost use Rattle.tag_core.specs.Settling.{AreSettled, LeavesWaiters};

    /// Returns the totals of all callers of the map, which have lent their records: tags won, given back, held and
    /// posted. Its one load, of the spare word, is not recorded as a step.
    pub fn settle(self, map: &Map<R>) -> (Loans<R>, Totals)
        requires map { IsGatheringOf map.now self }
        requires first { BeginsWith map.now.shape (gathered self) }
        requires all { HasAll (numbers (gathered self)) map.now.shape.callers }
        ensures map { AreLoansOf map.now result.0 }
        ensures lent { lent result.0 ≡ gathered self }
        ensures settled { AreSettled map.now.shape (gathered self) result.1 }
    {
        let Gathering {
            mut seat,
            won,
            back,
            held,
        } = self;
        map.table.shared.load::<Settling>(&mut seat, SPARE);
        let totals = Totals {
            got: won,
            back,
            held,
            posted: won - back - held,
        };
        (Loans { seat }, totals)
    }

    /// Returns who waits, while all callers of the map are together: a bit is 1 if the caller of that number does. Its one
    /// load is not recorded as a step.
    pub fn waiting(&mut self, map: &Map<R>) -> u64
        requires map { IsGatheringOf map.now self.old }
        requires first { BeginsWith map.now.shape (gathered self.old) }
        requires all { HasAll (numbers (gathered self.old)) map.now.shape.callers }
        ensures map { IsGatheringOf map.now self.new }
        ensures same { gathered self.new ≡ gathered self.old }
        ensures waiting { LeavesWaiters map.now.shape (gathered self.old) result }
    {
        let table = &map.table.shared;
        table.load::<SettlingWaiters>(&mut self.seat, waiters_spot())
    }
}

impl<R> Loans<R> {
    ghost use Rattle.tag_core.specs.Callers.{IsCallerOf, IsUnchanged, record_of};
    ghost use Rattle.tag_core.specs.Lending.{caller_before, lent, AreLoansOf};

    /// Returns the caller that lent its record last, unchanged. Its two loads, of the spare word, are not recorded as
    /// steps.
    pub fn give_back(&mut self, map: &Map<R>, lender: Lender<R>) -> Caller<R>
        requires map { AreLoansOf map.now self.old }
        requires caller { IsCallerOf map.now (caller_before lender) }
        requires latest { lent self.old ≡ record_of (caller_before lender) ∷ rest_of (lent self.old) }
        ensures map { AreLoansOf map.now self.new }
        ensures caller { IsCallerOf map.now result }
        ensures unchanged { IsUnchanged (caller_before lender) result }
        ensures rest { lent self.new ≡ rest_of (lent self.old) }
    {
        let Lender {
            mut seat,
            layout,
            number,
            life,
            held,
            won,
            back,
            shape,
            apart,
            was: _,
        } = lender;
        let table = &map.table.shared;
        let own = table.split_seat::<HandOut>(&mut self.seat);
        table.join_seat::<Collect>(&mut seat, own);
        Caller {
            seat,
            layout,
            states: first_state(layout),
            number,
            life,
            held,
            won,
            back,
            shape,
            apart,
        }
    }
}
