//! How a caller that was told, and does not need the tag that it was told of, sees to all tags.
ghost use Rattle.std.specs.Prelude.{◌≡◌, ◌+◌, ◌*◌, ◌<◌, ◌⊎◌, false, true};
ghost use Rattle.tag_layout.specs.Layout.{words};
ghost use Rattle.tag_model.specs.declared.world.TheConstants.{MAX_CALLERS};
ghost use Rattle.tag_core.specs.declared.berth.Waiter.{Waiter as WaiterIs};
ghost use Rattle.tag_core.specs.Callers.{layout_of, IsCallerOf};
ghost use Rattle.tag_core.specs.Holding.{HoldsSame};
ghost use Rattle.tag_bell.specs.Callers.{WaitsAsBefore, OwesNothing};
ghost use Rattle.tag_bell.specs.Calls.{OwesNoneWhere, Tells, nobody};
ghost use Rattle.tag_bell.specs.Looks.{OnlyLooks, SawFree};
ghost use Rattle.tag_bell.specs.Telling.{TellsInTurn};

use crate::telling::{finds_waiters, see_to};
use crate::told::Told;
use tag_core::{Caller, Map};

/// Sees to all that the caller has to see to, after it was told and got up, and won another tag or gave up. Where
/// somebody waits it goes through the words, and if it sees a free tag it tells one caller of each kind. Returns those
/// told.
#[inline]
pub fn settle<R>(map: &Map<R>, caller: &mut Caller<R>) -> Told
    requires caller { IsCallerOf map.now caller.old }
    ensures caller { IsCallerOf map.now caller.new }
    ensures done { (kind : WaiterIs) → OwesNothing kind caller.new }
    ensures told { Tells (2 * words (layout_of map.now) + 3 * MAX_CALLERS + 2) result caller.old caller.new }
    ensures turns { (result ≡ nobody) ⊎ TellsInTurn 1 result caller.old caller.new }
    ensures saw { (result ≡ nobody) ⊎ SawFree caller.old caller.new }
    ensures waits { WaitsAsBefore caller.old caller.new }
    ensures kept { HoldsSame caller.old caller.new }
{
    if !finds_waiters(map, caller) {
        return Told::none();
    }
    look_through(map, caller)
}

/// Looks for a free tag, and tells one caller of each kind if it sees one. A word without one needs no telling: the
/// looks show it.
#[inline(never)]
fn look_through<R>(map: &Map<R>, caller: &mut Caller<R>) -> Told
    requires caller { IsCallerOf map.now caller.old }
    ensures caller { IsCallerOf map.now caller.new }
    ensures done { (kind : WaiterIs) → OwesNothing kind caller.new }
    ensures told { Tells (2 * words (layout_of map.now) + (3 * MAX_CALLERS + 1)) result caller.old caller.new }
    ensures turns { (result ≡ nobody) ⊎ TellsInTurn 1 result caller.old caller.new }
    ensures saw { (result ≡ nobody) ⊎ SawFree caller.old caller.new }
    ensures waits { WaitsAsBefore caller.old caller.new }
    ensures kept { HoldsSame caller.old caller.new }
{
    for word in 0..map.layout().words() {
        if has_free(map, caller, word) {
            return see_to(map, caller, 1);
        }
    }
    Told::none()
}

/// Returns whether it sees a free tag in a word or in its cleared set. Two looks.
fn has_free<R>(map: &Map<R>, caller: &mut Caller<R>, word: u32) -> bool
    requires caller { IsCallerOf map.now caller.old }
    requires within { word < words (layout_of map.now) }
    ensures caller { IsCallerOf map.now caller.new }
    ensures free { result ≡ true → SawFree caller.old caller.new }
    ensures shut { result ≡ false → (kind : WaiterIs) → OwesNoneWhere (λ i. i ≡ word) kind caller.new }
    ensures others { (kind : WaiterIs) → OwesNoneWhere (λ i. i < word) kind caller.old
        → OwesNoneWhere (λ i. i < word) kind caller.new }
    ensures looks { OnlyLooks 2 caller.old caller.new }
    ensures waits { WaitsAsBefore caller.old caller.new }
    ensures kept { HoldsSame caller.old caller.new }
{
    let usable = map.layout().usable(word);
    let taken = map.look(caller, word);
    let aside = map.look_aside(caller, word);
    if aside & usable != 0 {
        return true;
    }
    if taken & usable != usable {
        return true;
    }
    false
}
