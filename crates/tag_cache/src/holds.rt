//! Whether the user of a cache holds a tag.
ghost use Rattle.std.specs.Prelude.{◌≡◌, ◌↔◌, IsTrue, IfOk, ⊤};
ghost use Rattle.refusals.specs.Refusals.{RefusesBy};
ghost use Rattle.tag_pool.specs.Hands.{IsTagOf, reserved_of};
ghost use Rattle.tag_pool.specs.Placing.{IsPlaced};
ghost use Rattle.tag_pool.specs.Sets.{kind_of};
ghost use Rattle.tag_cache.specs.Caches.{Holds, hand_of};
ghost use Rattle.tag_cache.specs.Refusals.{tag_checks};

use crate::cache::Cache;
use tag_pool::{Kind, Pool, TagFault};

impl<R> Cache<R> {
    /// Returns whether the user holds the tag: the hand does, and it is not kept. This makes no step.
    pub fn holds(&self, tag: u32) -> bool
        requires { IsTagOf (hand_of self.now) tag }
        ensures { IsTrue result ↔ Holds self.now tag }
    {
        self.hand.holds(tag) && !self.keeps(tag)
    }
}

impl<R: Copy> Cache<R> {
    ghost use Rattle.tag_cache.specs.Caches.{IsCacheOf};
    ghost use Rattle.tag_cache.specs.Changes.{KeepsSame, SameWindow};
    ghost use Rattle.tag_cache.specs.Holding.{HoldsSame};

    /// Returns the set of a tag that the user holds. It is refused as `clear` is. This makes no step.
    #[inline(always)]
    pub(crate) fn find_held(&self, pool: &Pool<R>, tag: u32) -> Result<Kind, TagFault>
        requires { IsCacheOf pool.now self.now }
        ensures refusals { RefusesBy (tag_checks pool.now self.now tag) ⊤ result }
        ensures kind { IfOk result (λ kind. kind ≡ kind_of (reserved_of pool.now) tag) }
    {
        let kind = pool.find_held(&self.hand, tag)?;
        if self.keeps(tag) {
            return Err(TagFault::NotHeld);
        }
        Ok(kind)
    }

    /// Places the hand's hints as `Pool::place` does.
    pub fn place(&mut self, pool: &Pool<R>)
        requires { IsCacheOf pool.now self.old }
        ensures cache { IsCacheOf pool.now self.new }
        ensures same { HoldsSame self.old self.new }
        ensures kept { KeepsSame self.old self.new }
        ensures window { SameWindow self.old self.new }
        ensures placed { IsPlaced pool.now (hand_of self.old) (hand_of self.new) }
    {
        pool.place(&mut self.hand);
    }
}
