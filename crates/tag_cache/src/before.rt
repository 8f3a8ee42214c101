//! What becomes of the kept tags before others that are cleared together.
ghost use Rattle.std.specs.Prelude.{◌≡◌, ◌↔◌, ℕ, IsTrue, IsFalse};
ghost use Rattle.tag_cache.specs.Windows.{IsIn};
ghost use Rattle.tag_cache.specs.Batches.{GoesOn, LeavesNone};
ghost use Rattle.tag_cache.specs.Caches.{IsCacheOf, IsKnown, KeepsNone, count_of, hand_of, reused_of};
ghost use Rattle.tag_cache.specs.Changes.{SameTerms};
ghost use Rattle.tag_cache.specs.Clears.{GivesKept};

use crate::cache::Cache;
use crate::keeping::Keeping;
use tag_pool::Pool;

impl<R> Cache<R> {
    /// Returns whether the kept tags may stay once the user is known to hold only the tags of this mask of the window. If so
    /// it says that it is.
    #[inline]
    pub(crate) fn goes_on(&mut self, left: u64) -> bool
        requires { (other : ℕ) → IsIn self.old.first left other → IsKnown self.old other }
        ensures on { IsTrue result → GoesOn left self.old self.new }
        ensures ends { IsFalse result → LeavesNone left self.old × (self.new ≡ self.old) }
    {
        if self.leaves_none(left) {
            return false;
        }
        self.known = left;
        true
    }

    /// Returns whether nothing may be kept any more once the user is known to hold only the tags of this mask.
    #[inline]
    fn leaves_none(&self, left: u64) -> bool
        ensures { IsTrue result ↔ LeavesNone left self.now }
    {
        match self.keeping {
            Keeping::Always => false,
            Keeping::WhileHolding => left == 0,
        }
    }
}

impl<R: Copy> Cache<R> {
    /// Gives all kept tags back, and says that the user is known to hold only the tags of this mask. Returns how many went
    /// back.
    pub(crate) fn leave(&mut self, pool: &Pool<R>, left: u64) -> u32
        requires cache { IsCacheOf pool.now self.old }
        requires left { (other : ℕ) → IsIn self.old.first left other → IsKnown self.old other }
        ensures cache { IsCacheOf pool.now self.new }
        ensures gives { GivesKept pool.now self.old (hand_of self.old) (hand_of self.new) }
        ensures freed { result ≡ count_of self.old }
        ensures none { KeepsNone self.new }
        ensures terms { SameTerms self.old self.new }
        ensures reused { reused_of self.new ≡ reused_of self.old }
        ensures knows { (other : ℕ) → IsKnown self.new other ↔ IsIn self.old.first left other }
    {
        let freed = self.give_back_kept(pool);
        self.known = left;
        freed
    }
}
