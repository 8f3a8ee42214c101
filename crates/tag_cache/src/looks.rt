//! Reports on the tags. A kept tag is busy: to the pool it is held.
ghost use Rattle.std.specs.Prelude.{◌≡◌, ℕ, ◌+◌, ◌*◌, ◌≤◌, length};
ghost use Rattle.tag_layout.specs.Layout.{words};
ghost use Rattle.tag_pool.specs.declared.kind.Kind.TheVariants.{Ordinary, Reserved};
ghost use Rattle.tag_pool.specs.Hands.{step_count, layout_of, total_of};
ghost use Rattle.tag_pool.specs.Bits.{bit_in};
ghost use Rattle.tag_pool.specs.Busy.{ListsBusy};
ghost use Rattle.tag_pool.specs.Dumps.{Dumps};
ghost use Rattle.tag_pool.specs.Shows.{Shows};
ghost use Rattle.tag_cache.specs.Caches.{IsCacheOf, IsKept, Holds, hand_of};
ghost use Rattle.tag_cache.specs.Same.{SameTags};

use crate::cache::Cache;
use tag_pool::{Kind, Pool, Shown};

impl<R: Copy> Cache<R> {
    /// Lists the busy tags, as `Pool::busy` does. The tags that this cache keeps are among them, and so are those that
    /// other caches keep, if they are found taken.
    pub fn busy(&mut self, pool: &Pool<R>, into: &mut [u64]) -> u32
        requires cache { IsCacheOf pool.now self.old }
        requires room { total_of pool.now ≤ 64 * length into.old }
        ensures cache { IsCacheOf pool.now self.new }
        ensures lists { ListsBusy pool.now into.new result (hand_of self.old) (hand_of self.new) }
        ensures room { length into.new ≡ length into.old }
        ensures held { (tag : ℕ) → Holds self.old tag → bit_in 64 into.new tag ≡ 1 }
        ensures kept { (tag : ℕ) → IsKept self.old tag → bit_in 64 into.new tag ≡ 1 }
        ensures bound { step_count (hand_of self.new)
            ≤ 2 * (words (layout_of pool.now Reserved) + words (layout_of pool.now Ordinary)) + step_count (hand_of self.old) }
        ensures same { SameTags self.old self.new }
    {
        pool.busy(&mut self.hand, into)
    }

    /// Returns the sizes of a set, and how many of its tags are busy, kept ones among them, and how many set aside, as
    /// `Pool::show` does.
    pub fn show(&mut self, pool: &Pool<R>, kind: Kind) -> Shown
        requires { IsCacheOf pool.now self.old }
        ensures cache { IsCacheOf pool.now self.new }
        ensures shows { Shows pool.now kind result (hand_of self.old) (hand_of self.new) }
        ensures bound { step_count (hand_of self.new) ≤ 2 * words (layout_of pool.now kind) + step_count (hand_of self.old) }
        ensures same { SameTags self.old self.new }
    {
        pool.show(&mut self.hand, kind)
    }

    /// Packs the busy tags of a set, kept ones among them, into the first bytes of `into`, as `Pool::dump` does.
    pub fn dump(&mut self, pool: &Pool<R>, kind: Kind, into: &mut [u8]) -> u32
        requires cache { IsCacheOf pool.now self.old }
        requires room { (layout_of pool.now kind).depth ≤ 8 * length into.old }
        ensures cache { IsCacheOf pool.now self.new }
        ensures dumps { Dumps (layout_of pool.now kind) kind into.old into.new result (hand_of self.old) (hand_of self.new) }
        ensures bound { step_count (hand_of self.new) ≤ 2 * words (layout_of pool.now kind) + step_count (hand_of self.old) }
        ensures same { SameTags self.old self.new }
    {
        pool.dump(&mut self.hand, kind, into)
    }
}
