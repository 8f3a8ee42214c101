//! Looks at the active count that a contract can place among the steps on another table.
ghost use Rattle.std.specs.Prelude.{◌≡◌, ◌≤◌, [], ◌∷◌, IsSome};
ghost use Rattle.wake_book.specs.Waits.{active_at};
ghost use Rattle.wake_book.specs.Groups.{IsWaiterOf, StandsSilent, standing_of, steps_of};
ghost use Rattle.wake_book.specs.Groups.{sighted_beside, sighted_steps};
ghost use Rattle.wake_book.specs.declared.steps.GroupStep.TheVariants.{Look};

use crate::groups::{Groups, Waiter};
use std::snapshot::Snapshot;

/// What a waiter's steps were right after it sighted the active count, and what another value was at that moment. Only
/// contracts see either.
#[derive(Drop)]
pub struct Sighting<T> {
    /// The waiter after the look.
    pub(crate) waiter: Snapshot<Waiter>,
    /// The other value at the look.
    pub(crate) beside: Snapshot<T>,
}

impl Groups {
    /// Loads the active count like `active`. The sighting keeps the waiter's steps right after this load, and what
    /// `beside` is at this moment.
    pub fn sight<T>(&self, waiter: &mut Waiter, beside: &T) -> (u64, Sighting<T>)
        requires groups { IsWaiterOf self.now waiter.old }
        ensures groups { IsWaiterOf self.now waiter.new × StandsSilent waiter.old waiter.new }
        ensures step { steps_of waiter.new ≡ Look active_at result.0 ∷ steps_of waiter.old }
        ensures own { IsSome (standing_of waiter.old) → 1 ≤ result.0 }
        ensures beside { sighted_beside result.1 ≡ beside.now }
        ensures steps { sighted_steps result.1 ≡ steps_of waiter.new }
    {
        let active = self.active(waiter);
        let sighting = Sighting {
            waiter: Snapshot::of(waiter),
            beside: Snapshot::of(beside),
        };
        (active, sighting)
    }
}

impl<T> Sighting<T> {
    /// Returns the sighting of a waiter that has made no step, and so has not looked yet.
    pub fn none(waiter: &Waiter, beside: &T) -> Sighting<T>
        requires { steps_of waiter.now ≡ [] }
        ensures beside { sighted_beside result ≡ beside.now }
        ensures steps { sighted_steps result ≡ [] }
    {
        Sighting {
            waiter: Snapshot::of(waiter),
            beside: Snapshot::of(beside),
        }
    }
}
