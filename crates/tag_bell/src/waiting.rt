//! How a caller begins to wait, and how it gets up.
ghost use Rattle.std.specs.Prelude.{◌≡◌, ◌↔◌, IsTrue, false, true};
ghost use Rattle.tag_core.specs.declared.berth.Waiter.{Waiter as WaiterIs};
ghost use Rattle.tag_core.specs.declared.berth.Berth.{Berth as BerthIs};
ghost use Rattle.tag_core.specs.declared.bell_step.BellStep.TheVariants.{LookAt};
ghost use Rattle.tag_core.specs.Berths.{IsListed};
ghost use Rattle.tag_core.specs.Callers.{IsCallerOf, record_of};
ghost use Rattle.tag_core.specs.Holding.{HoldsSame};
ghost use Rattle.tag_bell.specs.Callers.{IsWaiting, IsUp, WaitsAsBefore};
ghost use Rattle.tag_bell.specs.Calls.{HasTriedNoLess, Rings, OwesNoMore};
ghost use Rattle.tag_bell.specs.Entering.{FindsTurn, Leaves, ListsSelf};

use tag_core::{Berth, Caller, Map, Waiter};

/// With which turn a caller is listed. Of those listed, whoever has the lowest is told first.
#[derive(Clone, Copy, Debug, PartialEq, Eq)]
pub enum Turn {
    /// The next one.
    Next,
    /// The one that it had: for a caller that was told and found no tag.
    Same,
}

/// Lists the caller among those that wait, as this waiter: among all of them, and then in its berth. Afterwards it has to
/// try each tag before it may sleep. A caller that does not wait yet takes the next turn in each case.
pub fn list_self<R>(map: &Map<R>, caller: &mut Caller<R>, waiter: Waiter, turn: Turn)
    requires { IsCallerOf map.now caller.old }
    ensures caller { IsCallerOf map.now caller.new }
    ensures waiting { IsWaiting waiter caller.new }
    ensures owes { IsUp caller.old → (kind : WaiterIs) → OwesNoMore kind caller.old caller.new }
    ensures steps { ListsSelf waiter turn caller.old caller.new }
    ensures kept { HoldsSame caller.old caller.new }
{
    if let Some(turn) = own_turn(map, caller, turn) {
        map.enlist(caller, waiter, turn);
        return;
    }
    let turn = map.take_turn(caller);
    map.enter(caller);
    map.enlist(caller, waiter, turn);
}

/// Returns the turn with which the caller waits, if it is to keep it and does wait.
fn own_turn<R>(map: &Map<R>, caller: &mut Caller<R>, turn: Turn) -> Option<u64>
    requires { IsCallerOf map.now caller.old }
    ensures caller { IsCallerOf map.now caller.new }
    ensures finds { FindsTurn turn result caller.old caller.new }
    ensures kept { HoldsSame caller.old caller.new }
{
    if turn == Turn::Next {
        return None;
    }
    match map.look_at_own(caller) {
        Berth::Up => None,
        Berth::Listed(_, turn) => Some(turn),
        Berth::Told(_, turn) => Some(turn),
    }
}

/// Ends the caller's wait, and returns whether somebody had told it. One that was told has to see to each tag: it settles
/// (`settle`) unless it finds none.
pub fn get_up<R>(map: &Map<R>, caller: &mut Caller<R>) -> bool
    requires { IsCallerOf map.now caller.old }
    ensures caller { IsCallerOf map.now caller.new }
    ensures up { IsUp caller.new }
    ensures owes { result ≡ false → (kind : WaiterIs) → OwesNoMore kind caller.old caller.new }
    ensures steps { Leaves result caller.old caller.new }
    ensures kept { HoldsSame caller.old caller.new }
{
    let berth = map.get_up(caller);
    map.leave(caller);
    berth.is_told()
}

/// Looks whether the caller was told: returns whether it does not find itself listed, so also if it does not wait. One
/// step.
pub fn is_told<R>(map: &Map<R>, caller: &mut Caller<R>) -> bool
    requires { IsCallerOf map.now caller.old }
    ensures caller { IsCallerOf map.now caller.new }
    ensures waits { WaitsAsBefore caller.old caller.new }
    ensures tried { HasTriedNoLess caller.old caller.new }
    ensures owes { (kind : WaiterIs) → OwesNoMore kind caller.old caller.new }
    ensures step { (found : BerthIs) × Rings (LookAt (record_of caller.old).number found) caller.old caller.new
        × (IsTrue result ↔ ¬ IsListed (λ waiter. true) found) }
    ensures kept { HoldsSame caller.old caller.new }
{
    let berth = map.look_at_own(caller);
    !berth.is_listed()
}
