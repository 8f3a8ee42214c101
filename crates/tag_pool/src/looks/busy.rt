//! Lists the busy tags.
ghost use Rattle.std.specs.Prelude.{◌≡◌, ℕ, ◌+◌, ◌*◌, ◌≤◌, length};
ghost use Rattle.tag_layout.specs.Layout.{words};
ghost use Rattle.tag_layout.specs.declared.layout.TheConstants.{MAX_DEPTH};
ghost use Rattle.tag_pool.specs.Hands.{IsHandOf, IsStillOf, Holds, layout_of, total_of, step_count};
ghost use Rattle.tag_pool.specs.Bits.{bit_in};
ghost use Rattle.tag_pool.specs.Busy.{ListsSet, ListsBusy};
ghost use Rattle.tag_pool.specs.declared.kind.Kind.TheVariants.{Ordinary, Reserved};

use crate::hand::Hand;
use crate::kind::Kind;
use crate::looks::marks::mark;
use crate::pool::Pool;

impl<R: Copy> Pool<R> {
    /// Sets bit `t % 64` of `into[t / 64]` for each busy tag `t`, clears all other bits, and returns the number of busy
    /// tags. A tag is busy if it was found taken and then not set aside. `into` must have a bit for each tag of both
    /// sets. The hand's list has one load of each word, and then one of its cleared set; so while other hands act, the
    /// tags are not a snapshot of a single moment. Loads that are not recorded as steps are not counted.
    pub fn busy(&self, hand: &mut Hand<R>, into: &mut [u64]) -> u32
        requires hand { IsHandOf self.now hand.old }
        requires room { total_of self.now ≤ 64 * length into.old }
        ensures hand { IsStillOf self.now hand.old hand.new }
        ensures lists { ListsBusy self.now into.new result hand.old hand.new }
        ensures room { length into.new ≡ length into.old }
        ensures held { (tag : ℕ) → Holds hand.old tag → bit_in 64 into.new tag ≡ 1 }
        ensures bound { step_count hand.new
            ≤ 2 * (words (layout_of self.now Reserved) + words (layout_of self.now Ordinary)) + step_count hand.old }
    {
        into.fill(0);
        let reserved = self.list_set(hand, Kind::Reserved, 0, into);
        let ordinary = self.list_set(hand, Kind::Ordinary, self.reserved_count, into);
        reserved + ordinary
    }

    /// Sets the bits of the busy tags of a set, whose first tag has bit `first`, and returns how many they are.
    fn list_set(&self, hand: &mut Hand<R>, kind: Kind, first: u32, into: &mut [u64]) -> u32
        requires hand { IsHandOf self.now hand.old }
        requires room { first + (layout_of self.now kind).depth ≤ 64 * length into.old }
        requires low { first ≤ MAX_DEPTH }
        ensures hand { IsStillOf self.now hand.old hand.new }
        ensures room { length into.new ≡ length into.old }
        ensures lists { ListsSet (layout_of self.now kind) kind first into.old into.new result hand.old hand.new }
        ensures few { result ≤ MAX_DEPTH }
    {
        let layout = self.layout(kind);
        let mut count = 0u32;
        for word in 0..layout.words() {
            let (taken, aside) = self.look_both(hand, kind, word);
            let mask = taken & layout.usable(word) & !aside;
            let start = first + layout.tag_at(word, 0);
            mark(into, start, layout.word_depth(word), mask);
            count += mask.count_ones();
        }
        count
    }
}
