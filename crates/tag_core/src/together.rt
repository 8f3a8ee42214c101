//! Gathering callers, one after another: their records come into the view of one seat.
ghost use Rattle.std.specs.Prelude.{◌≡◌, ◌+◌, ◌*◌, ◌≤◌, [], ◌∷◌, length};
ghost use Rattle.tag_layout.specs.declared.layout.TheConstants.{MAX_DEPTH};
ghost use Rattle.tag_model.specs.declared.world.TheConstants.{MAX_CALLERS, MOST_WON};
ghost use Rattle.tag_core.specs.Sizes.{total_of, size_of};

use crate::caller::Caller;
use crate::loans::Lender;
use crate::map::Map;
use crate::plays::Counting;
use crate::record::View;
use crate::spots::SPARE;
use atomic_table::Seat;
use std::mem::swap;
use std::snapshot::Snapshot;
use step_ledger::{Collect, HandOut};

/// Callers that have been gathered, one after another. A clause sees the list of their records, the newest first.
#[derive(Drop)]
pub struct Gathering<R> {
    /// It has all their records, and no slots.
    pub(crate) seat: Seat<R, View<R>>,
    /// Number of tags that they won.
    pub(crate) won: u64,
    /// Number of tags that they put or gave back.
    pub(crate) back: u64,
    /// Number of tags that they hold.
    pub(crate) held: u64,
    ghost empty: { seat.me.1 ≡ [] },
    ghost sums: { (won ≡ total_of (λ r. r.won) seat.me.0.records.value) × (back ≡ total_of (λ r. r.back) seat.me.0.records.value)
        × (held ≡ total_of (λ r. size_of r.held) seat.me.0.records.value) },
    ghost few: { length seat.me.0.records.value ≤ MAX_CALLERS },
    ghost small: { (won ≤ length seat.me.0.records.value * MOST_WON)
        × (back ≤ length seat.me.0.records.value * (MAX_CALLERS * MOST_WON))
        × (held ≤ length seat.me.0.records.value * (64 * MAX_DEPTH)) },
}

/// Number of bits that are 1 in these masks.
pub(crate) fn count_tags(masks: &[u64]) -> u64
    requires { length masks.now ≤ MAX_DEPTH }
    ensures value { result ≡ size_of masks.now }
    ensures bound { result ≤ 64 * length masks.now }
{
    let mut size = 0u64;
    for mask in masks {
        size += mask.count_ones() as u64;
    }
    size
}

impl<R> Map<R> {
    ghost use Rattle.tag_core.specs.Callers.{IsCallerOf, record_of};
    ghost use Rattle.tag_core.specs.Gathering.{IsGatheringOf, gathered, numbers_of};
    ghost use Rattle.tag_core.specs.Lending.{caller_before};

    /// Starts to gather the map's callers with this one. The slots of its tags stay in the table, each with some value.
    /// Its one load, of the spare word, is not recorded as a step.
    pub fn start_gathering(&self, caller: Caller<R>) -> Gathering<R>
        requires { IsCallerOf self.now caller }
        ensures map { IsGatheringOf self.now result }
        ensures gathered { gathered result ≡ record_of caller ∷ [] }
    {
        let (first, _) = self.start_lending(caller);
        first
    }

    /// Starts to bring the map's callers together for a while, with this one: it lends its record, and keeps the slots
    /// of its tags. Its one load, of the spare word, is not recorded as a step.
    pub fn start_lending(&self, caller: Caller<R>) -> (Gathering<R>, Lender<R>)
        requires { IsCallerOf self.now caller }
        ensures map { IsGatheringOf self.now result.0 }
        ensures gathered { gathered result.0 ≡ record_of caller ∷ [] }
        ensures lender { caller_before result.1 ≡ caller }
    {
        let was = Snapshot::of(&caller);
        let Caller {
            mut seat,
            layout,
            states: _,
            number,
            life,
            held: masks,
            won,
            back,
            shape,
            apart,
        } = caller;
        let note = self.table.shared.split_seat::<HandOut>(&mut seat);
        let held = count_tags(masks.as_slice());
        let first = Gathering {
            seat: note,
            won,
            back,
            held,
        };
        let lender = Lender {
            seat,
            layout,
            number,
            life,
            held: masks,
            won,
            back,
            shape,
            apart,
            was,
        };
        (first, lender)
    }
}

impl<R> Gathering<R> {
    ghost use Rattle.tag_core.specs.Callers.{IsCallerOf, record_of};
    ghost use Rattle.tag_core.specs.Gathering.{IsGatheringOf, gathered};
    ghost use Rattle.tag_core.specs.Lending.{caller_before};

    /// Adds another caller of the map to those gathered. Its three loads, of the spare word, are not recorded as steps.
    pub fn add(&mut self, map: &Map<R>, caller: Caller<R>)
        requires caller { IsCallerOf map.now caller }
        requires map { IsGatheringOf map.now self.old }
        ensures map { IsGatheringOf map.now self.new }
        ensures gathered { gathered self.new ≡ record_of caller ∷ gathered self.old }
    {
        self.lend(map, caller);
    }

    /// Has another caller of the map lend its record to those gathered. Its three loads, of the spare word, stand in no
    /// list.
    pub fn lend(&mut self, map: &Map<R>, caller: Caller<R>) -> Lender<R>
        requires caller { IsCallerOf map.now caller }
        requires map { IsGatheringOf map.now self.old }
        ensures map { IsGatheringOf map.now self.new }
        ensures gathered { gathered self.new ≡ record_of caller ∷ gathered self.old }
        ensures lender { caller_before result ≡ caller }
    {
        let (first, lender) = map.start_lending(caller);
        let Gathering {
            mut seat,
            won,
            back,
            held,
        } = first;
        swap(&mut self.seat, &mut seat);
        map.table.shared.join_seat::<Collect>(&mut self.seat, seat);
        map.table.shared.load::<Counting>(&mut self.seat, SPARE);
        self.won += won;
        self.back += back;
        self.held += held;
        lender
    }
}
