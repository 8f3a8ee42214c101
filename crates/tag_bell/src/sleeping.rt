//! How a caller sleeps until it is told, and how those told are woken.
ghost use Rattle.std.specs.Prelude.{◌≡◌};
ghost use Rattle.tag_core.specs.declared.berth.Waiter.{Waiter as WaiterIs};
ghost use Rattle.tag_core.specs.declared.berth.Waiter.TheVariants.{Sleeper};
ghost use Rattle.tag_core.specs.Callers.{IsCallerOf};
ghost use Rattle.tag_core.specs.Holding.{HoldsSame};
ghost use Rattle.tag_bell.specs.Callers.{IsWaiting, HasTriedAll, OwesNothing, WaitsAsBefore};
ghost use Rattle.tag_bell.specs.Calls.{HasTriedNoLess, OwesNoMore};
ghost use Rattle.tag_bell.specs.Sleeping.{SleepsUntilTold, told_by};

use crate::told::Told;
use std::sync::Wait;
use tag_core::{Caller, Map, Roused, Unroused};
use tag_model::MAX_CALLERS;

/// Whom a call told: the sleepers, which it woke, and the listeners, which whoever gets this has to wake.
#[derive(Drop)]
pub struct Woken {
    /// The sleepers that were roused.
    pub(crate) roused: Roused,
    /// The listeners that were told.
    pub(crate) listeners: Unroused,
}

impl Woken {
    ghost use Rattle.std.specs.Prelude.{◌≡◌, ◌↔◌, IsTrue};
    ghost use Rattle.tag_bell.specs.Calls.{nobody};
    ghost use Rattle.tag_bell.specs.Sleeping.{told_by};

    /// Nobody.
    pub fn none() -> Woken
        ensures { told_by result ≡ nobody }
    {
        Woken {
            roused: Roused::none(),
            listeners: Unroused::none(),
        }
    }

    /// Returns whether nobody was told.
    pub fn is_none(&self) -> bool
        ensures { IsTrue result ↔ (((told_by self.now).sleepers ≡ 0) × ((told_by self.now).listeners ≡ 0)) }
    {
        self.sleepers() == 0 && self.listeners() == 0
    }

    /// Returns the sleepers that were told and woken, a bit for the number of each.
    pub fn sleepers(&self) -> u64
        ensures { result ≡ (told_by self.now).sleepers }
    {
        self.roused.callers()
    }

    /// Returns the listeners that were told, a bit for the number of each.
    pub fn listeners(&self) -> u64
        ensures { result ≡ (told_by self.now).listeners }
    {
        self.listeners.callers()
    }
}

/// Sleeps until the caller finds itself told. It may sleep only if it waits as a sleeper, has tried each tag in vain since it
/// listed itself, and has nothing to see to. It looks at its berth before each time that it sleeps, and once more after the
/// last.
pub fn sleep<W: Wait, R: Drop>(rt: &W, map: &Map<R>, caller: &mut Caller<R>)
    requires caller { IsCallerOf map.now caller.old }
    requires waiting { IsWaiting Sleeper caller.old }
    requires in_vain { HasTriedAll caller.old }
    requires done { (kind : WaiterIs) → OwesNothing kind caller.old }
    ensures caller { IsCallerOf map.now caller.new }
    ensures sleeps { SleepsUntilTold caller.old caller.new }
    ensures waits { WaitsAsBefore caller.old caller.new }
    ensures tried { HasTriedNoLess caller.old caller.new }
    ensures owes { (kind : WaiterIs) → OwesNoMore kind caller.old caller.new }
    ensures kept { HoldsSame caller.old caller.new }
{
    for _ in rt.forever() {
        let berth = map.look_at_own(caller);
        if !berth.is_listed() {
            return;
        }
        // Whoever tells the caller after its look has changed the word on which it sleeps, so it misses no wakeup.
        map.sleep(rt, caller, berth);
    }
    unreachable!()
}

/// Wakes the sleepers among those that a call told. It makes no step.
pub fn wake<R>(map: &Map<R>, told: Told) -> Woken
    ensures { told_by result ≡ told }
{
    let Told {
        sleepers,
        listeners,
    } = told;
    Woken {
        roused: rouse_each(map, sleepers),
        listeners,
    }
}

/// Rouses each of those told.
fn rouse_each<R>(map: &Map<R>, told: Unroused) -> Roused
    ensures { result.callers ≡ told }
{
    let mut roused = Roused::none();
    if told.callers() == 0 {
        return roused;
    }
    for number in 0..MAX_CALLERS {
        map.rouse(number, &told, &mut roused);
    }
    roused
}
