//! The slots of tags that the user is known to hold, which need no test.
ghost use Rattle.std.specs.Prelude.{◌≡◌};
ghost use mathlib.Core.Option.{some};
ghost use Rattle.tag_pool.specs.Slots as hands;
ghost use Rattle.tag_cache.specs.Caches.{IsCacheOf, IsKnown, slot_of, hand_of};
ghost use Rattle.tag_cache.specs.Changes.{KeepsSame, SameWindow};
ghost use Rattle.tag_cache.specs.Holding.{HoldsSame, Writes};

use crate::cache::Cache;
use tag_pool::Pool;

impl<R: Copy> Cache<R> {
    /// Returns the value in the slot of a tag that the user is known to hold.
    #[inline(always)]
    pub(crate) fn read_known(&mut self, pool: &Pool<R>, tag: u32) -> R
        requires cache { IsCacheOf pool.now self.old }
        requires known { IsKnown self.old tag }
        ensures cache { IsCacheOf pool.now self.new }
        ensures value { slot_of self.old tag ≡ some result }
        ensures reads { hands.Reads tag result (hand_of self.old) (hand_of self.new) }
        ensures same { HoldsSame self.old self.new }
        ensures kept { KeepsSame self.old self.new }
        ensures window { SameWindow self.old self.new }
    {
        pool.read_held(&mut self.hand, tag)
    }

    /// Writes the slot of a tag that the user is known to hold, and returns its former value.
    #[inline(always)]
    pub(crate) fn write_known(&mut self, pool: &Pool<R>, tag: u32, value: R) -> R
        requires cache { IsCacheOf pool.now self.old }
        requires known { IsKnown self.old tag }
        ensures cache { IsCacheOf pool.now self.new }
        ensures former { slot_of self.old tag ≡ some result }
        ensures writes { Writes tag value self.old self.new }
        ensures hand { hands.Writes tag value (hand_of self.old) (hand_of self.new) }
        ensures kept { KeepsSame self.old self.new }
        ensures window { SameWindow self.old self.new }
    {
        pool.write_ordinary_held(&mut self.hand, tag, value)
    }
}
