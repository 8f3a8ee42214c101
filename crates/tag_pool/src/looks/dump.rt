//! Packs the busy tags of a set into bytes.
ghost use Rattle.std.specs.Prelude.{◌≡◌, ◌+◌, ◌*◌, ◌≤◌, length};
ghost use Rattle.tag_layout.specs.Layout.{words};
ghost use Rattle.tag_pool.specs.Hands.{IsHandOf, IsStillOf, layout_of, step_count};
ghost use Rattle.tag_pool.specs.Dumps.{Packs, Dumps};

use crate::hand::Hand;
use crate::kind::Kind;
use crate::looks::marks::mark_bytes;
use crate::pool::Pool;

impl<R: Copy> Pool<R> {
    /// Packs a set into the first bytes of `into`, eight tags a byte, low bit first, where 1 is busy: found taken and
    /// then not set aside. Returns the number of those bytes, `ceil(depth / 8)`. The last one is padded with zeros, and
    /// the bytes after it are unchanged. The hand's list has one load of each word, and then one of its cleared set; so
    /// while other hands act, the bytes are not a snapshot of a single moment. Loads that are not recorded as
    /// steps are not counted.
    pub fn dump(&self, hand: &mut Hand<R>, kind: Kind, into: &mut [u8]) -> u32
        requires hand { IsHandOf self.now hand.old }
        requires room { (layout_of self.now kind).depth ≤ 8 * length into.old }
        ensures hand { IsStillOf self.now hand.old hand.new }
        ensures dumps { Dumps (layout_of self.now kind) kind into.old into.new result hand.old hand.new }
        ensures bound { step_count hand.new ≤ 2 * words (layout_of self.now kind) + step_count hand.old }
    {
        let count = self.layout(kind).depth().div_ceil(8);
        self.pack(hand, kind, &mut into[..count as usize]);
        count
    }

    /// Sets the bits of the busy tags of a set, and clears all others.
    fn pack(&self, hand: &mut Hand<R>, kind: Kind, bytes: &mut [u8])
        requires hand { IsHandOf self.now hand.old }
        requires room { (layout_of self.now kind).depth ≤ 8 * length bytes.old }
        ensures hand { IsStillOf self.now hand.old hand.new }
        ensures room { length bytes.new ≡ length bytes.old }
        ensures packs { Packs (layout_of self.now kind) kind bytes.new hand.old hand.new }
    {
        let layout = self.layout(kind);
        bytes.fill(0);
        for word in 0..layout.words() {
            let (taken, aside) = self.look_both(hand, kind, word);
            let mask = taken & layout.usable(word) & !aside;
            let start = layout.tag_at(word, 0);
            mark_bytes(bytes, start, layout.word_depth(word), mask);
        }
    }
}
