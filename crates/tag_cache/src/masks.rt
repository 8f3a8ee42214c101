//! Clears of the ordinary tags of a mask, as a batch get answers it, that tell nobody.
ghost use Rattle.std.specs.Prelude.{◌<◌, ◌≤◌, ◌↔◌, ◌^◌, ℕ, All, Contains, ⊤};
ghost use Rattle.tag_pool.specs.Masks.{tags_in};
ghost use Rattle.tag_pool.specs.Lists.{AreOrdinary};
ghost use Rattle.tag_cache.specs.Windows.{IsIn};
ghost use Rattle.tag_cache.specs.Batches.{GivesKeptAndList, ListGoes};
ghost use Rattle.tag_cache.specs.Caches.{IsCacheOf, IsWithin, IsKnown, Holds};
ghost use Rattle.tag_cache.specs.Changes.{KnowsNoneOf};
ghost use Rattle.refusals.specs.Refusals.{RefusesBy};
ghost use Rattle.tag_cache.specs.Refusals.{mask_checks};
ghost use Rattle.tag_cache.specs.Calls.{DoesClearMask, GivesBack};

use crate::cache::{Cache, WINDOW};
use tag_pool::{Pool, TagFault};

impl<R: Copy> Cache<R> {
    /// Clears the ordinary tags of a mask that the user holds, in which bit `i` is tag `first + i` as in the answer of
    /// `get_batch`, and returns how many ordinary tags went back, which the caller has to see to. It does with them what
    /// `clear_batch_quietly` does with a list: it keeps none, and the kept tags go back first in the same case. They go
    /// back as by `Pool::clear_mask_quietly`. `NotHeld` also means that a tag is kept. `BadCount` means that the mask is
    /// empty; `NoSuchTag` that a number is not below the total, or a tag is reserved. Nothing changes on an error.
    #[inline]
    pub fn clear_mask_quietly(
        &mut self,
        pool: &Pool<R>,
        first: u32,
        mask: u64,
    ) -> Result<u32, TagFault>
        requires { IsCacheOf pool.now self.old }
        ensures cache { IsCacheOf pool.now self.new }
        ensures does { DoesClearMask first mask pool.now result self.old self.new }
    {
        self.check_mask(pool, first, mask)?;
        Ok(self.give_back_mask(pool, first, mask))
    }

    /// Checks that the mask has tags, that they are ordinary ones, and that the user holds each of them.
    #[inline]
    fn check_mask(&self, pool: &Pool<R>, first: u32, mask: u64) -> Result<(), TagFault>
        requires { IsCacheOf pool.now self.now }
        ensures refusals { RefusesBy (mask_checks pool.now self.now first mask) ⊤ result }
    {
        pool.check_mask(&self.hand, first, mask)?;
        if self.kept & self.inside(first, mask) != 0 {
            return Err(TagFault::NotHeld);
        }
        Ok(())
    }

    /// Gives back the tags of a mask that the user holds, after all kept ones if none may be kept any more.
    #[inline]
    fn give_back_mask(&mut self, pool: &Pool<R>, first: u32, mask: u64) -> u32
        requires cache { IsCacheOf pool.now self.old }
        requires mask { (1 ≤ mask) × AreOrdinary pool.now (tags_in first mask) }
        requires held { All (Holds self.old) (tags_in first mask) }
        ensures cache { IsCacheOf pool.now self.new }
        ensures way { ListGoes pool.now (tags_in first mask) self.old self.new }
        ensures freed { GivesBack result self.old self.new }
        ensures knows { KnowsNoneOf (tags_in first mask) self.old self.new }
    {
        let left = self.known_outside(first, mask);
        if self.goes_on(left) {
            pool.clear_mask_held_quietly(&mut self.hand, first, mask);
            return mask.count_ones();
        }
        self.give_back_kept_and_mask(pool, left, first, mask)
    }

    /// Gives all kept tags back and then those of a mask that the user holds, after which it is known to hold only the
    /// tags that are `left`.
    #[inline(never)]
    fn give_back_kept_and_mask(&mut self, pool: &Pool<R>, left: u64, first: u32, mask: u64) -> u32
        requires cache { IsCacheOf pool.now self.old }
        requires left { (other : ℕ) → IsIn self.old.first left other
            ↔ (IsKnown self.old other × ¬ (Contains (tags_in first mask) other)) }
        requires mask { (1 ≤ mask) × AreOrdinary pool.now (tags_in first mask) }
        requires held { All (Holds self.old) (tags_in first mask) }
        ensures cache { IsCacheOf pool.now self.new }
        ensures gives { GivesKeptAndList pool.now (tags_in first mask) self.old self.new }
        ensures freed { GivesBack result self.old self.new }
        ensures knows { KnowsNoneOf (tags_in first mask) self.old self.new }
    {
        let kept = self.leave(pool, left);
        pool.clear_mask_held_quietly(&mut self.hand, first, mask);
        kept + mask.count_ones()
    }
}

impl<R> Cache<R> {
    /// Returns the mask of the tags that the user is known to hold, without those of a mask.
    #[inline]
    fn known_outside(&self, first: u32, mask: u64) -> u64
        ensures { (other : ℕ) → IsIn self.now.first result other
            ↔ (IsKnown self.now other × ¬ (Contains (tags_in first mask) other)) }
    {
        self.known & !self.inside(first, mask)
    }

    /// Returns the tags of a mask that are in the window, as a mask of the window.
    #[inline]
    fn inside(&self, first: u32, mask: u64) -> u64
        ensures fits { result < 2 ^ 64 }
        ensures inside { (tag : ℕ) → IsIn self.now.first result tag ↔ (IsIn first mask tag × IsWithin self.now tag) }
    {
        if first.abs_diff(self.first) >= WINDOW {
            return 0;
        }
        if self.first < first {
            return mask << (first - self.first);
        }
        mask >> (self.first - first)
    }
}
