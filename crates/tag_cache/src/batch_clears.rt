//! Clears of several ordinary tags at once that tell nobody.
ghost use Rattle.std.specs.Prelude.{◌≢◌, ◌↔◌, ℕ, All, Contains, IsTrue};
ghost use Rattle.tag_pool.specs.Lists.{AreOrdinary};
ghost use Rattle.tag_pool.specs.Runs.{CountsTags};
ghost use Rattle.tag_cache.specs.Windows.{IsIn};
ghost use Rattle.tag_cache.specs.Batches.{AreHeldOnce, GivesKeptAndList, ListGoes};
ghost use Rattle.tag_cache.specs.Caches.{IsCacheOf, IsKept, IsKnown};
ghost use Rattle.tag_cache.specs.Changes.{KnowsNoneOf};
ghost use Rattle.tag_cache.specs.Calls.{DoesClearBatch, GivesBack};

use crate::cache::{Cache, WINDOW};
use tag_pool::{Pool, TagFault};

impl<R: Copy> Cache<R> {
    /// Clears 1 to 64 ordinary tags that the user holds, as `Pool::clear_batch_quietly` does, and returns how many
    /// ordinary tags went back, which the caller has to see to. It keeps none of them. All kept tags go back first if tags
    /// are kept only while the user holds one, and it is known to hold none but these. `NotHeld` also means that a tag is
    /// kept. `BadCount` means no tag, or more than 64; `NoSuchTag` that a number is not below the total, or a tag is
    /// reserved. Nothing changes on an error.
    pub fn clear_batch_quietly(&mut self, pool: &Pool<R>, list: &[u32]) -> Result<u32, TagFault>
        requires { IsCacheOf pool.now self.old }
        ensures cache { IsCacheOf pool.now self.new }
        ensures does { DoesClearBatch list.now pool.now result self.old self.new }
    {
        pool.check_batch(&self.hand, list)?;
        if !self.keeps_none_of(list) {
            return Err(TagFault::NotHeld);
        }
        Ok(self.give_back_list(pool, list))
    }

    /// Gives back a list of tags that the user holds, after all kept ones if none may be kept any more.
    fn give_back_list(&mut self, pool: &Pool<R>, list: &[u32]) -> u32
        requires cache { IsCacheOf pool.now self.old }
        requires list { CountsTags list.now × AreOrdinary pool.now list.now }
        requires held { AreHeldOnce self.old list.now }
        ensures cache { IsCacheOf pool.now self.new }
        ensures way { ListGoes pool.now list.now self.old self.new }
        ensures freed { GivesBack result self.old self.new }
        ensures knows { KnowsNoneOf list.now self.old self.new }
    {
        let left = self.known_without_all(list);
        if self.goes_on(left) {
            pool.clear_batch_held_quietly(&mut self.hand, list);
            return list.len() as u32;
        }
        self.give_back_kept_and_list(pool, left, list)
    }

    /// Gives all kept tags back and then a list of tags that the user holds, after which it is known to hold only the
    /// tags that are `left`.
    #[inline(never)]
    fn give_back_kept_and_list(&mut self, pool: &Pool<R>, left: u64, list: &[u32]) -> u32
        requires cache { IsCacheOf pool.now self.old }
        requires left { (other : ℕ) → IsIn self.old.first left other
            ↔ (IsKnown self.old other × ¬ (Contains list.now other)) }
        requires list { CountsTags list.now × AreOrdinary pool.now list.now }
        requires held { AreHeldOnce self.old list.now }
        ensures cache { IsCacheOf pool.now self.new }
        ensures gives { GivesKeptAndList pool.now list.now self.old self.new }
        ensures freed { GivesBack result self.old self.new }
        ensures knows { KnowsNoneOf list.now self.old self.new }
    {
        let kept = self.leave(pool, left);
        pool.clear_batch_held_quietly(&mut self.hand, list);
        kept + list.len() as u32
    }
}

impl<R> Cache<R> {
    /// Returns whether none of the tags is kept.
    fn keeps_none_of(&self, list: &[u32]) -> bool
        ensures { IsTrue result ↔ All (λ tag. ¬ (IsKept self.now tag)) list.now }
    {
        for tag in list {
            if self.keeps(*tag) {
                return false;
            }
        }
        true
    }

    /// Returns the mask of the tags that the user is known to hold, without these.
    fn known_without_all(&self, list: &[u32]) -> u64
        ensures { (other : ℕ) → IsIn self.now.first result other ↔ (IsKnown self.now other × ¬ (Contains list.now other)) }
    {
        let mut left = self.known;
        for tag in list {
            left = self.without(left, *tag);
        }
        left
    }

    /// Returns a mask of the window without this tag.
    #[inline]
    fn without(&self, mask: u64, tag: u32) -> u64
        ensures { (other : ℕ) → IsIn self.now.first result other ↔ (IsIn self.now.first mask other × other ≢ tag) }
    {
        let offset = self.offset(tag);
        if offset >= WINDOW {
            return mask;
        }
        mask & !(1 << offset)
    }
}
