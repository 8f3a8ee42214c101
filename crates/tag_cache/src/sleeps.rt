//! Sleeps by the bell for a tag of a set, and who wakes the sleepers: a hand sleeps until it is told, and whoever tells
//! hands wakes the sleepers among them. A cache whose hand sleeps for an ordinary tag keeps nothing.
ghost use Rattle.std.specs.Prelude.{◌≡◌, IfOk};
ghost use Rattle.refusals.specs.Refusals.{RefusesBy};
ghost use Rattle.tag_core.specs.declared.berth.Waiter.TheVariants.{Sleeper};
ghost use Rattle.tag_bell.specs.Callers.{IsWaiting};
ghost use Rattle.tag_search.specs.Vain.{MaySleep};
ghost use Rattle.tag_pool.specs.declared.kind.Kind.TheVariants.{Ordinary, Reserved};
ghost use Rattle.tag_pool.specs.Hands.{Changes, caller_of, layout_of};
ghost use Rattle.tag_pool.specs.Refusals as of_hand;
ghost use Rattle.tag_pool.specs.Sides as side;
ghost use Rattle.tag_pool.specs.Sides.{see_to_all_steps};
ghost use Rattle.tag_pool.specs.Waits as hands;
ghost use Rattle.tag_cache.specs.Caches.{IsCacheOf, KeepsNone, hand_of};
ghost use Rattle.tag_cache.specs.Changes.{IsUnchanged, KeepsSame, Learns};
ghost use Rattle.tag_cache.specs.Refusals.{blocking_checks};
ghost use Rattle.tag_cache.specs.Same.{SameTags};
ghost use Rattle.tag_cache.specs.Sleeping.{GetsBlocking, GetsReservedBlocking, SeesToAndWakes, WakesFor};

use crate::cache::Cache;
use std::sync::Wait;
use tag_pool::{Got, Kind, Pool, TagFault, Woken};

impl<R: Copy> Cache<R> {
    /// Returns a kept tag, or takes a free ordinary tag and waits as long as it finds none, as `Pool::get_blocking` does.
    /// With the tag it returns whom it woke: nobody if the tag was kept. If no tag is kept, `NoSuchTag` means that there
    /// are no ordinary tags, `Spent` that the hand's life is used up.
    pub fn get_blocking<W: Wait>(&mut self, rt: &W, pool: &Pool<R>) -> Result<Got<u32>, TagFault>
        requires { IsCacheOf pool.now self.old }
        ensures cache { IsCacheOf pool.now self.new }
        ensures refusals { RefusesBy (blocking_checks pool.now self.old) (IsUnchanged self.old self.new) result }
        ensures gets { IfOk result (λ got. GetsBlocking pool.now got.answer got.woken self.old self.new) }
    {
        if self.keeps_none() {
            return self.wait_for(rt, pool);
        }
        Ok(Got {
            answer: self.reuse(),
            woken: Woken::none(),
        })
    }

    /// Has the hand get a tag, and sleep as long as it finds none.
    #[inline(never)]
    fn wait_for<W: Wait>(&mut self, rt: &W, pool: &Pool<R>) -> Result<Got<u32>, TagFault>
        requires cache { IsCacheOf pool.now self.old }
        requires none { KeepsNone self.old }
        ensures cache { IsCacheOf pool.now self.new }
        ensures refusals { RefusesBy (of_hand.blocking_checks pool.now (hand_of self.old) Ordinary) (IsUnchanged self.old self.new) result }
        ensures gets { IfOk result (λ got.
            hands.GetsBlocking pool.now Ordinary got.answer got.woken (hand_of self.old) (hand_of self.new)) }
        ensures kept { KeepsSame self.old self.new }
        ensures knows { IfOk result (λ got. Learns got.answer self.old self.new) }
    {
        let got = pool.get_blocking(rt, &mut self.hand)?;
        self.learn(got.answer);
        Ok(got)
    }

    /// Takes a free reserved tag, and waits as long as it finds none, as `Pool::get_reserved_blocking` does. What is kept
    /// stays kept meanwhile, where nobody else finds it: `flush` first. `NoReserved` means that there are no reserved tags,
    /// `Spent` that the hand's life in the reserved set is used up.
    pub fn get_reserved_blocking<W: Wait>(
        &mut self,
        rt: &W,
        pool: &Pool<R>,
    ) -> Result<Got<u32>, TagFault>
        requires { IsCacheOf pool.now self.old }
        ensures cache { IsCacheOf pool.now self.new }
        ensures refusals { RefusesBy (of_hand.blocking_checks pool.now (hand_of self.old) Reserved) (IsUnchanged self.old self.new) result }
        ensures gets { IfOk result (λ got. GetsReservedBlocking pool.now got.answer got.woken self.old self.new) }
    {
        pool.get_reserved_blocking(rt, &mut self.hand)
    }

    /// Sleeps until the hand finds itself told, as `Pool::sleep` does. It may sleep only if it waits as a sleeper, has
    /// tried each tag of this kind in vain since, and has nothing to see to, as after a get that found none, and for an
    /// ordinary tag only if nothing is kept.
    pub fn sleep<W: Wait>(&mut self, rt: &W, pool: &Pool<R>, kind: Kind)
        requires cache { IsCacheOf pool.now self.old }
        requires none { kind ≡ Ordinary → KeepsNone self.old }
        requires waiting { IsWaiting Sleeper (caller_of (hand_of self.old) kind) }
        requires may { MaySleep (caller_of (hand_of self.old) kind) }
        ensures cache { IsCacheOf pool.now self.new }
        ensures sleeps { hands.UntilTold kind (hand_of self.old) (hand_of self.new) }
        ensures same { SameTags self.old self.new }
    {
        pool.sleep(rt, &mut self.hand, kind);
    }

    /// Sees to all that the hand has to see to, as `see_to` does, after other calls gave `freed` tags of this kind back,
    /// and wakes the sleepers whom this told.
    pub fn wake(&mut self, pool: &Pool<R>, kind: Kind, freed: u32) -> Woken
        requires { IsCacheOf pool.now self.old }
        ensures cache { IsCacheOf pool.now self.new }
        ensures wakes { SeesToAndWakes kind freed pool.now result self.old self.new }
    {
        let told = self.see_to(pool, kind, freed);
        pool.wake_told(kind, told)
    }

    /// Wakes as `wake` does, if any tag of this kind was given back.
    #[inline]
    pub(crate) fn wake_for(&mut self, pool: &Pool<R>, kind: Kind, freed: u32) -> Woken
        requires { IsCacheOf pool.now self.old }
        ensures cache { IsCacheOf pool.now self.new }
        ensures wakes { WakesFor kind freed pool.now result self.old self.new }
    {
        if freed == 0 {
            return Woken::none();
        }
        self.wake(pool, kind, freed)
    }

    /// Sees to all tags of this kind, as `see_to_all` does, after the hand was told and got up, and won another tag or gave
    /// up, and wakes the sleepers whom this told.
    pub fn wake_next(&mut self, pool: &Pool<R>, kind: Kind) -> Woken
        requires { IsCacheOf pool.now self.old }
        ensures cache { IsCacheOf pool.now self.new }
        ensures wakes { Changes kind (side.SeesToAndWakes 1 (see_to_all_steps (layout_of pool.now kind)) result)
            (hand_of self.old) (hand_of self.new) }
        ensures same { SameTags self.old self.new }
    {
        pool.wake_next(&mut self.hand, kind)
    }
}
