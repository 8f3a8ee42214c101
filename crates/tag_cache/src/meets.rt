//! What caches and hands that are passed in together can prove.
ghost use Rattle.std.specs.Prelude.{◌≢◌, ℕ};
ghost use Rattle.tag_pool.specs.Hands as hands;
ghost use Rattle.tag_pool.specs.Hands.{IsHandOf, number_of};
ghost use Rattle.tag_pool.specs.Meeting.{ShareHistories};
ghost use Rattle.tag_pool.specs.Holding as hand_holding;
ghost use Rattle.tag_cache.specs.Caches.{IsCacheOf, Holds, hand_of};
ghost use Rattle.tag_cache.specs.Changes.{IsUnchanged};
ghost use Rattle.tag_cache.specs.Same.{SameTags};

use crate::cache::Cache;
use tag_pool::{Hand, Pool};

impl<R: Copy> Cache<R> {
    /// Establishes that two caches have no tag in common, neither held by their users nor kept. It changes nothing.
    pub fn meet(&mut self, other: &mut Cache<R>, pool: &Pool<R>)
        requires caches { IsCacheOf pool.now self.old × IsCacheOf pool.now other.old }
        ensures caches { IsCacheOf pool.now self.new × IsCacheOf pool.now other.new }
        ensures apart { (tag : ℕ) → hands.Holds (hand_of self.new) tag → ¬ (hands.Holds (hand_of other.new) tag) }
        ensures users { (tag : ℕ) → Holds self.new tag → ¬ (Holds other.new tag) }
        ensures numbers { number_of (hand_of self.new) ≢ number_of (hand_of other.new) }
        ensures histories { ShareHistories pool.now (hand_of self.new) (hand_of other.new) }
        ensures unchanged { hand_holding.IsUnchanged (hand_of self.old) (hand_of self.new)
            × hand_holding.IsUnchanged (hand_of other.old) (hand_of other.new) }
        ensures same { SameTags self.old self.new × SameTags other.old other.new }
    {
        pool.meet(&mut self.hand, &mut other.hand);
    }

    /// Establishes that a cache and a hand have no tag in common, neither held by the user of the cache nor kept. It
    /// changes nothing.
    pub fn meet_hand(&mut self, hand: &mut Hand<R>, pool: &Pool<R>)
        requires cache { IsCacheOf pool.now self.old }
        requires hand { IsHandOf pool.now hand.old }
        ensures cache { IsCacheOf pool.now self.new }
        ensures hand { IsHandOf pool.now hand.new }
        ensures apart { (tag : ℕ) → hands.Holds (hand_of self.new) tag → ¬ (hands.Holds hand.new tag) }
        ensures numbers { number_of (hand_of self.new) ≢ number_of hand.new }
        ensures histories { ShareHistories pool.now (hand_of self.new) hand.new }
        ensures unchanged { hand_holding.IsUnchanged (hand_of self.old) (hand_of self.new)
            × hand_holding.IsUnchanged hand.old hand.new }
        ensures same { SameTags self.old self.new }
    {
        pool.meet(&mut self.hand, hand);
    }

    /// Establishes that another cache does not have a tag that this one has: its user does not hold it, and it is not
    /// kept. This makes no step.
    pub fn apart(&mut self, other: &mut Cache<R>, pool: &Pool<R>, tag: u32)
        requires caches { IsCacheOf pool.now self.old × IsCacheOf pool.now other.old }
        requires held { hands.Holds (hand_of self.old) tag }
        ensures caches { IsCacheOf pool.now self.new × IsCacheOf pool.now other.new }
        ensures apart { ¬ (hands.Holds (hand_of other.new) tag) }
        ensures same { IsUnchanged self.old self.new × IsUnchanged other.old other.new }
    {
        pool.apart(&mut self.hand, &mut other.hand, tag);
    }
}
