//! Slots: the value beside a held tag.
ghost use Rattle.std.specs.Prelude.{◌≡◌, ◌≢◌, ◌∷◌, ℕ};
ghost use mathlib.Core.Option.{some};
ghost use Rattle.atomic_table.specs.Table.{rest};
ghost use Rattle.tag_core.specs.Holding.{HoldsSame};
ghost use Rattle.tag_core.specs.Callers.{IsCallerOf, SameMap, record_of, Holds, slot_of};

use crate::caller::Caller;
use crate::map::{Map, MapRule};
use crate::plays::{Fronting, Ordering};
use crate::record::View;
use crate::shape::Shape;
use atomic_table::{Seat, Shared};

impl<R> Map<R> {
    /// Writes the slot of a held tag, and returns the former value. Its two loads, of the tag's state, which only the
    /// holder writes, change no place and are not recorded as steps.
    pub fn slot(&self, caller: &mut Caller<R>, tag: u32, new: R) -> R
        requires caller { IsCallerOf self.now caller.old }
        requires held { Holds caller.old tag }
        ensures caller { IsCallerOf self.now caller.new }
        ensures found { slot_of caller.old tag ≡ some result }
        ensures put { slot_of caller.new tag ≡ some new }
        ensures others { (other : ℕ) → Holds caller.old other → other ≢ tag → slot_of caller.new other ≡ slot_of caller.old other }
        ensures unchanged { (record_of caller.new ≡ record_of caller.old) × SameMap caller.old caller.new }
    {
        let spot = caller.state_spot(tag);
        let table = &self.table.shared;
        table.load::<Fronting>(&mut caller.seat, spot);
        let old = table.exchange(&mut caller.seat, tag as usize, new);
        table.load::<Ordering>(&mut caller.seat, spot);
        old
    }
}

/// The value of the slot that the seat took last.
fn front_value<R: Copy>(
    table: &Shared<R, View<R>, Shape, MapRule>,
    seat: &mut Seat<R, View<R>>,
    slot: usize,
) -> R
    requires { (seat.old.table_id ≡ table.now.table_id) × ((old : R) × (seat.old.me.1 ≡ (slot, old) ∷ rest seat.old.me.1)) }
    ensures same { (seat.new.table_id ≡ seat.old.table_id) × (seat.new.id ≡ seat.old.id) × (seat.new.me ≡ seat.old.me) }
    ensures value { seat.old.me.1 ≡ (slot, result) ∷ rest seat.old.me.1 }
{
    *seat.slot_mut(table, slot)
}

impl<R: Copy> Map<R> {
    /// Returns the value in the slot of a held tag, which keeps it. Its two loads, of the same kind as those of `slot`,
    /// are not recorded as steps.
    pub fn read(&self, caller: &mut Caller<R>, tag: u32) -> R
        requires caller { IsCallerOf self.now caller.old }
        requires held { Holds caller.old tag }
        ensures caller { IsCallerOf self.now caller.new }
        ensures value { slot_of caller.old tag ≡ some result }
        ensures kept { HoldsSame caller.old caller.new }
        ensures unchanged { (record_of caller.new ≡ record_of caller.old) × SameMap caller.old caller.new }
    {
        let spot = caller.state_spot(tag);
        let table = &self.table.shared;
        table.load::<Fronting>(&mut caller.seat, spot);
        let value = front_value(table, &mut caller.seat, tag as usize);
        table.load::<Ordering>(&mut caller.seat, spot);
        value
    }
}
