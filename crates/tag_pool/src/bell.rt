//! Waits for a tag of a set by the bell: a hand lists itself, learns that it was told, and gets up; and whoever makes tags
//! of the set free sees to them. In each set a hand has a berth of its own, so the laws of `tag_bell` say of each what
//! follows for all hands together: nobody sleeps beside a free tag unless somebody is on the way to it. A hand may wait in
//! one set while it uses the other.
ghost use Rattle.std.specs.Prelude.{◌≡◌, ◌+◌, ◌≤◌, ◌⊎◌, max};
ghost use Rattle.tag_bell.specs.Calls.{nobody};
ghost use Rattle.tag_bell.specs.Looks.{SawFree};
ghost use Rattle.tag_pool.specs.Bell.{ListsSelf, GetsUp, LooksForWaiters, LooksIfTold};
ghost use Rattle.tag_pool.specs.Hands.{caller_of, layout_of, IsHandOf, IsStillOf, Changes, back_of, step_count};
ghost use Rattle.tag_pool.specs.Holding.{HoldsSame};
ghost use Rattle.tag_pool.specs.Sides.{SeesTo, see_to_all_steps, see_to_steps};

use crate::hand::Hand;
use crate::kind::Kind;
use crate::pool::Pool;
use tag_bell::{Told, Turn};
use tag_core::Waiter;

impl<R: Copy> Pool<R> {
    /// Lists the hand among those that wait for a tag of this kind, as this waiter. Afterwards it has to try each tag, by a get
    /// that finds none, before it may sleep. Four steps at most.
    pub fn list_self(&self, hand: &mut Hand<R>, kind: Kind, waiter: Waiter, turn: Turn)
        requires hand { IsHandOf self.now hand.old }
        ensures hand { IsStillOf self.now hand.old hand.new }
        ensures lists { Changes kind (ListsSelf waiter turn) hand.old hand.new }
        ensures same { HoldsSame hand.old hand.new }
        ensures bound { step_count hand.new ≤ 4 + step_count hand.old }
    {
        tag_bell::list_self(
            self.map(kind),
            &mut hand.side_mut(kind).caller,
            waiter,
            turn,
        );
    }

    /// Ends the hand's wait, and returns whether somebody had told it. One that was told has to see to each tag
    /// (`see_to_all`), unless its next get finds none. Two steps.
    pub fn get_up(&self, hand: &mut Hand<R>, kind: Kind) -> bool
        requires hand { IsHandOf self.now hand.old }
        ensures hand { IsStillOf self.now hand.old hand.new }
        ensures gets_up { Changes kind (GetsUp result) hand.old hand.new }
        ensures same { HoldsSame hand.old hand.new }
        ensures bound { step_count hand.new ≡ 2 + step_count hand.old }
    {
        tag_bell::get_up(self.map(kind), &mut hand.side_mut(kind).caller)
    }

    /// Looks whether the hand was told: returns whether it does not find itself listed, so also if it does not wait. One that
    /// was told gets up. One step.
    pub fn is_told(&self, hand: &mut Hand<R>, kind: Kind) -> bool
        requires hand { IsHandOf self.now hand.old }
        ensures hand { IsStillOf self.now hand.old hand.new }
        ensures looks { Changes kind (LooksIfTold result) hand.old hand.new }
        ensures same { HoldsSame hand.old hand.new }
        ensures bound { step_count hand.new ≡ 1 + step_count hand.old }
    {
        tag_bell::is_told(self.map(kind), &mut hand.side_mut(kind).caller)
    }

    /// Returns whether it finds a hand that waits, by one look. If it finds none, this hand has nothing to see to.
    #[inline]
    pub fn finds_waiters(&self, hand: &mut Hand<R>, kind: Kind) -> bool
        requires hand { IsHandOf self.now hand.old }
        ensures hand { IsStillOf self.now hand.old hand.new }
        ensures looks { Changes kind (LooksForWaiters result) hand.old hand.new }
        ensures same { HoldsSame hand.old hand.new }
        ensures bound { step_count hand.new ≡ 1 + step_count hand.old }
    {
        tag_bell::finds_waiters(self.map(kind), &mut hand.side_mut(kind).caller)
    }

    /// Sees to all that the hand has to see to, after it made `freed` tags of this kind free: where somebody waits, it tells
    /// up to `freed` sleepers and as many listeners, and one of each at least, in the order of their turns; but no more
    /// sleepers than make, with those that were told and are not up yet, as many as the set has tags. Returns those told, who
    /// are to be woken. Where nobody waits it makes one load, and otherwise at most 193 steps.
    #[inline]
    pub fn see_to(&self, hand: &mut Hand<R>, kind: Kind, freed: u32) -> Told
        requires hand { IsHandOf self.now hand.old }
        ensures hand { IsStillOf self.now hand.old hand.new }
        ensures sees_to { Changes kind (SeesTo (max freed 1) see_to_steps result) hand.old hand.new }
        ensures same { HoldsSame hand.old hand.new }
        ensures back { back_of hand.new kind ≡ back_of hand.old kind }
        ensures bound { step_count hand.new ≤ see_to_steps + step_count hand.old }
    {
        tag_bell::see_to(self.map(kind), &mut hand.side_mut(kind).caller, freed)
    }

    /// Sees to all that the hand has to see to, after it was told and got up, and won another tag or gave up. Where
    /// somebody waits it looks through the words of the set, and if it sees a free tag it tells one sleeper and one
    /// listener. Returns those told, who are to be woken.
    #[inline]
    pub fn see_to_all(&self, hand: &mut Hand<R>, kind: Kind) -> Told
        requires hand { IsHandOf self.now hand.old }
        ensures hand { IsStillOf self.now hand.old hand.new }
        ensures sees_to { Changes kind (SeesTo 1 (see_to_all_steps (layout_of self.now kind)) result) hand.old hand.new }
        ensures saw { (result ≡ nobody) ⊎ SawFree (caller_of hand.old kind) (caller_of hand.new kind) }
        ensures same { HoldsSame hand.old hand.new }
        ensures back { back_of hand.new kind ≡ back_of hand.old kind }
        ensures bound { step_count hand.new ≤ see_to_all_steps (layout_of self.now kind) + step_count hand.old }
    {
        tag_bell::settle(self.map(kind), &mut hand.side_mut(kind).caller)
    }
}
