//! Kept tags are given back.
ghost use Rattle.std.specs.Prelude.{◌≡◌};
ghost use Rattle.tag_pool.specs.Hands.{IsHandOf};
ghost use Rattle.tag_cache.specs.Caches.{IsCacheOf, KeepsNone, count_of, hand_of, reused_of};
ghost use Rattle.tag_cache.specs.Changes.{SameTerms};
ghost use Rattle.tag_cache.specs.Holding.{IsLeftWith};
ghost use Rattle.tag_cache.specs.Clears.{GivesKept};
ghost use Rattle.tag_cache.specs.Calls.{DoesFlush};

use crate::cache::Cache;
use tag_pool::{Hand, Pool};

impl<R: Copy> Cache<R> {
    /// Gives all kept tags back, by one step for each word as `Pool::clear_mask` does, and tells nobody. Returns how many
    /// they were, which the caller has to see to. If nothing is kept it makes no step.
    pub fn flush_quietly(&mut self, pool: &Pool<R>) -> u32
        requires { IsCacheOf pool.now self.old }
        ensures cache { IsCacheOf pool.now self.new }
        ensures does { DoesFlush pool.now result self.old self.new }
    {
        self.give_back_kept(pool)
    }

    /// Gives all kept tags back, and returns how many they were. The window stays where it is.
    #[inline(never)]
    pub(crate) fn give_back_kept(&mut self, pool: &Pool<R>) -> u32
        requires { IsCacheOf pool.now self.old }
        ensures cache { IsCacheOf pool.now self.new }
        ensures none { KeepsNone self.new }
        ensures gives { GivesKept pool.now self.old (hand_of self.old) (hand_of self.new) }
        ensures freed { result ≡ count_of self.old }
        ensures terms { SameTerms self.old self.new }
        ensures reused { reused_of self.new ≡ reused_of self.old }
        ensures window { (self.new.first ≡ self.old.first) × (self.new.known ≡ self.old.known) }
    {
        let kept = self.kept;
        if kept == 0 {
            return 0;
        }
        self.kept = 0;
        self.room = self.most;
        pool.clear_mask_held_quietly(&mut self.hand, self.first, kept);
        kept.count_ones()
    }

    /// Gives all kept tags back, as `flush_quietly` does. Returns the hand, which holds what the user holds, and how many
    /// they were.
    pub fn into_hand_quietly(mut self, pool: &Pool<R>) -> (Hand<R>, u32)
        requires { IsCacheOf pool.now self }
        ensures hand { IsHandOf pool.now result.0 }
        ensures left { IsLeftWith self result.0 }
        ensures gives { GivesKept pool.now self (hand_of self) result.0 }
        ensures freed { result.1 ≡ count_of self }
    {
        let freed = self.flush_quietly(pool);
        let Cache { hand, .. } = self;
        (hand, freed)
    }
}
