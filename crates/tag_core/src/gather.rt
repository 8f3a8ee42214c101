//! Gathering: all callers are passed in, and the map ends.
ghost use Rattle.std.specs.Prelude.{◌≡◌, ℕ, ◌+◌, ◌<◌, ◌≤◌, ◌↔◌, [], length, map, All, IfOk, IfErr, IsOk, vec_capacity};
ghost use mathlib.Core.Option.{some};
ghost use lib.ListN.{get_elem?};
ghost use Rattle.std.specs.Slots.{slots_items, slots_len, IsFull};
ghost use Rattle.tag_core.specs.Spacing.{table_width};
ghost use Rattle.step_ledger.specs.Gather.{IsCauseOf, HasAll};
ghost use Rattle.tag_core.specs.Gathering.{states_posted, IsGathered, IsGatheringOf, gathered, numbers, numbers_of};
ghost use Rattle.tag_core.specs.Callers.{IsCallerOf, record_of};

use crate::caller::Caller;
use crate::closed::{Closed, GatherFault};
use crate::map::Map;
use crate::record::Record;
use crate::spots::state_spot;
use crate::together::Gathering;
use atomic_table::Closed as Ended;
use std::alloc::Global;
use step_ledger::{Gather, all_there, gather_each};
use tag_layout::Layout;
use tag_model::Totals;

fn count_posted<R>(ended: &Ended<R, Global>, layout: Layout) -> u64
    requires { IsFull ended.now.words × (slots_len ended.now.words ≡ table_width layout) }
    ensures value { result ≡ states_posted layout (slots_items ended.now.words) }
{
    let mut posted = 0u64;
    for tag in 0..layout.depth() {
        if ended.word(state_spot(layout, tag)) != 0 {
            posted += 1;
        }
    }
    posted
}

/// The slots, in the order of their tags, in memory that was set aside for them when the map was opened.
fn take_out<R>(mut ended: Ended<R, Global>, mut room: Vec<R>) -> Vec<R>
    requires full { IsFull ended.slots }
    requires room { (room.items ≡ []) × (slots_len ended.slots ≤ vec_capacity room) }
    ensures items { result.items ≡ slots_items ended.slots }
    ensures len { length result.items ≡ slots_len ended.slots }
{
    let mut i = 0;
    while i < ended.slot_count() {
        room.push_reserved(ended.take(i));
        i += 1;
    }
    ended.free();
    room
}

/// Ends the map, with all records on one seat.
fn end<R>(map: Map<R>, all: Gathering<R>) -> Closed<R>
    requires seat { all.seat.table_id ≡ map.table.shared.table_id }
    requires all { (n : ℕ) → n < map.shape.callers
        → (i : ℕ) × (r : Record R) × (get_elem? all.seat.me.0.records.value i ≡ some r) × (r.number ≡ n) }
    ensures { IsGathered map.shape all.seat.me.0.records.value result }
{
    let Map { table, shape, room } = map;
    let Gathering {
        seat,
        won,
        back,
        held,
    } = all;
    let ended = table.close_with(seat);
    let posted = count_posted(&ended, shape.layout);
    let slots = take_out(ended, room);
    Closed {
        layout: shape.layout,
        totals: Totals {
            got: won,
            back,
            held,
            posted,
        },
        slots,
    }
}

impl<R> Map<R> {
    /// Ends the map once all its callers are gathered, and returns their totals. No step.
    pub fn finish(self, gathering: Gathering<R>) -> Closed<R>
        requires map { IsGatheringOf self gathering }
        requires all { HasAll (numbers (gathered gathering)) self.shape.callers }
        ensures { IsGathered self.shape (gathered gathering) result }
    {
        end(self, gathering)
    }
}

impl<R: Drop> Map<R> {
    /// Ends the map if all its callers are present, in any order, and returns their totals.
    pub fn gather(self, callers: Vec<Caller<R>>) -> Result<Closed<R>, GatherFault<R>>
        requires { All (λ c. IsCallerOf self c) callers.items }
        ensures ok { IfOk result (λ closed. IsGathered self.shape (map record_of callers.items) closed) }
        ensures succeeds { IsOk result ↔ HasAll (numbers_of callers.items) self.shape.callers }
        ensures missing { IfErr result (λ f. IsCauseOf (numbers_of callers.items) self.shape.callers f.cause) }
        ensures err { IfErr result (λ f. (f.map ≡ self) × (f.callers ≡ callers)) }
    {
        if let Err(cause) = all_there(&callers, self.shape.callers) {
            return Err(GatherFault {
                cause,
                map: self,
                callers,
            });
        }
        let all = gather_each(&self, callers);
        Ok(self.finish(all))
    }
}

impl<R> Gather for Map<R> {
    type Member = Caller<R>;

    type Gathering = Gathering<R>;

    ghost owns = { λ owner caller. IsCallerOf owner caller };

    ghost gathers = { λ owner callers gathering. IsGatheringOf owner gathering × (gathered gathering ≡ map record_of callers) };

    fn take_first(&self, caller: Caller<R>) -> Gathering<R> {
        self.start_gathering(caller)
    }

    fn take_next(&self, gathering: &mut Gathering<R>, caller: Caller<R>) {
        gathering.add(self, caller);
    }
}
