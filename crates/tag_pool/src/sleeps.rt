//! Sleeps by the bell for a tag of a set, and who wakes the sleepers: a hand sleeps until it is told, and whoever tells
//! hands wakes the sleepers among them.
ghost use Rattle.std.specs.Prelude.{◌≡◌, ◌+◌, ◌≤◌, ◌⊎◌, IfOk, max};
ghost use Rattle.refusals.specs.Refusals.{RefusesBy};
ghost use Rattle.tag_core.specs.declared.berth.Waiter.TheVariants.{Sleeper};
ghost use Rattle.tag_bell.specs.Callers.{IsWaiting};
ghost use Rattle.tag_bell.specs.Calls.{nobody};
ghost use Rattle.tag_bell.specs.Looks.{SawFree};
ghost use Rattle.tag_bell.specs.Sleeping.{told_by};
ghost use Rattle.tag_search.specs.Vain.{MaySleep};
ghost use Rattle.tag_pool.specs.Bell.{SleepsUntilTold};
ghost use Rattle.tag_pool.specs.Clears.{ClearsAndWakes, clear_steps};
ghost use Rattle.tag_pool.specs.Hands.{caller_of, layout_of, IsHandOf, IsStillOf, Changes, back_of, step_count};
ghost use Rattle.tag_pool.specs.Holding.{HoldsSame};
ghost use Rattle.tag_pool.specs.Refusals.{tag_checks};
ghost use Rattle.tag_pool.specs.Sides.{SeesToAndWakes, see_to_all_steps, see_to_steps};

use crate::fault::TagFault;
use crate::hand::Hand;
use crate::kind::Kind;
use crate::pool::Pool;
use std::sync::Wait;
use tag_bell::{Told, Woken};

impl<R: Copy> Pool<R> {
    /// Sleeps until the hand finds itself told. It may sleep only if it is listed as a sleeper, has tried each tag of this
    /// kind in vain since, and has nothing to see to, as after a get that found none. It looks at its berth before each time
    /// that it sleeps, and once more after the last.
    pub fn sleep<W: Wait>(&self, rt: &W, hand: &mut Hand<R>, kind: Kind)
        requires hand { IsHandOf self.now hand.old }
        requires waiting { IsWaiting Sleeper (caller_of hand.old kind) }
        requires may { MaySleep (caller_of hand.old kind) }
        ensures hand { IsStillOf self.now hand.old hand.new }
        ensures sleeps { Changes kind SleepsUntilTold hand.old hand.new }
        ensures same { HoldsSame hand.old hand.new }
    {
        tag_bell::sleep(rt, self.map(kind), &mut hand.side_mut(kind).caller);
    }

    /// Wakes the sleepers among those that a call told. It makes no step.
    pub fn wake_told(&self, kind: Kind, told: Told) -> Woken
        ensures { told_by result ≡ told }
    {
        tag_bell::wake(self.map(kind), told)
    }

    /// Sees to all that the hand has to see to, after other calls made `freed` tags of this kind free: tells others as
    /// `see_to` does, and wakes the sleepers among them. Returns whom it told.
    pub fn wake(&self, hand: &mut Hand<R>, kind: Kind, freed: u32) -> Woken
        requires hand { IsHandOf self.now hand.old }
        ensures hand { IsStillOf self.now hand.old hand.new }
        ensures wakes { Changes kind (SeesToAndWakes (max freed 1) see_to_steps result) hand.old hand.new }
        ensures same { HoldsSame hand.old hand.new }
        ensures back { back_of hand.new kind ≡ back_of hand.old kind }
        ensures bound { step_count hand.new ≤ see_to_steps + step_count hand.old }
    {
        let told = self.see_to(hand, kind, freed);
        self.wake_told(kind, told)
    }

    /// Sees to all tags of this kind, as `see_to_all` does, after the hand was told and got up, and won another tag or gave
    /// up, and wakes the sleepers whom this told.
    pub fn wake_next(&self, hand: &mut Hand<R>, kind: Kind) -> Woken
        requires hand { IsHandOf self.now hand.old }
        ensures hand { IsStillOf self.now hand.old hand.new }
        ensures wakes { Changes kind (SeesToAndWakes 1 (see_to_all_steps (layout_of self.now kind)) result)
            hand.old hand.new }
        ensures saw { (told_by result ≡ nobody) ⊎ SawFree (caller_of hand.old kind) (caller_of hand.new kind) }
        ensures same { HoldsSame hand.old hand.new }
        ensures bound { step_count hand.new ≤ see_to_all_steps (layout_of self.now kind) + step_count hand.old }
    {
        let told = self.see_to_all(hand, kind);
        self.wake_told(kind, told)
    }

    /// Clears a held tag. Then it sees to this one tag of its kind as `wake` does: if anybody waits, it tells a sleeper and a
    /// listener, and wakes the sleeper. Returns whom it told. It is refused as `clear_quietly` is: `NoSuchTag`, `NotHeld`;
    /// nothing changes then.
    pub fn clear(&self, hand: &mut Hand<R>, tag: u32) -> Result<Woken, TagFault>
        requires hand { IsHandOf self.now hand.old }
        ensures hand { IsStillOf self.now hand.old hand.new }
        ensures refusals { RefusesBy (tag_checks self.now hand.old tag) (hand.new ≡ hand.old) result }
        ensures wakes { IfOk result (λ woken. ClearsAndWakes self.now tag woken hand.old hand.new) }
        ensures bound { step_count hand.new ≤ clear_steps + step_count hand.old }
    {
        let kind = self.clear_quietly(hand, tag)?;
        Ok(self.wake(hand, kind, 1))
    }
}
