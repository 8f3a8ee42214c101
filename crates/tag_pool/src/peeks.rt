//! Reports without a hand, and so at any time. Their loads are in no list of steps, so no clause says what they find.
ghost use Rattle.std.specs.Prelude.{◌≡◌, ◌+◌, ◌*◌, ◌<◌, ◌≤◌, length};
ghost use Rattle.tag_layout.specs.Layout.{words};
ghost use Rattle.tag_layout.specs.declared.layout.TheConstants.{MAX_DEPTH};
ghost use Rattle.tag_pool.specs.Hands.{layout_of, total_of};
ghost use Rattle.tag_pool.specs.Peeks.{PeeksSet, PeeksBusy, PeeksShow};

use crate::kind::Kind;
use crate::looks::marks::mark;
use crate::pool::Pool;
use crate::shown::Shown;

impl<R: Copy> Pool<R> {
    /// Sets bit `t % 64` of `into[t / 64]` for each busy tag `t`, clears all other bits, and returns the number of busy
    /// tags, as `busy` does but without a hand.
    pub fn peek_busy(&self, into: &mut [u64]) -> u32
        requires { total_of self.now ≤ 64 * length into.old }
        ensures lists { PeeksBusy (total_of self.now) into.new result }
        ensures room { length into.new ≡ length into.old }
    {
        into.fill(0);
        let reserved = self.peek_set(Kind::Reserved, 0, into);
        let ordinary = self.peek_set(Kind::Ordinary, self.reserved_count, into);
        reserved + ordinary
    }

    /// Returns the sizes of a set, and how many of its tags are busy and how many set aside, as `show` does but without a
    /// hand.
    pub fn peek_show(&self, kind: Kind) -> Shown
        ensures { PeeksShow (layout_of self.now kind) result }
    {
        let layout = self.layout(kind);
        let mut busy = 0u32;
        let mut cleared = 0u32;
        for word in 0..layout.words() {
            let (taken, aside) = self.peek_both(kind, word);
            let usable = layout.usable(word);
            busy += (taken & usable & !aside).count_ones();
            cleared += (aside & usable).count_ones();
        }
        Shown {
            depth: layout.depth(),
            busy,
            cleared,
            bits_per_word: 1 << layout.shift(),
            map_nr: layout.words(),
        }
    }

    /// Sets the bits of the busy tags of a set, whose first tag has bit `first`, and returns how many they are.
    fn peek_set(&self, kind: Kind, first: u32, into: &mut [u64]) -> u32
        requires room { first + (layout_of self.now kind).depth ≤ 64 * length into.old }
        requires low { first ≤ MAX_DEPTH }
        ensures room { length into.new ≡ length into.old }
        ensures peeks { PeeksSet (layout_of self.now kind) first into.old into.new result }
        ensures few { result ≤ MAX_DEPTH }
    {
        let layout = self.layout(kind);
        let mut count = 0u32;
        for word in 0..layout.words() {
            let (taken, aside) = self.peek_both(kind, word);
            let mask = taken & layout.usable(word) & !aside;
            let start = first + layout.tag_at(word, 0);
            mark(into, start, layout.word_depth(word), mask);
            count += mask.count_ones();
        }
        count
    }

    /// Loads a word of a set (1 is taken) and then its cleared set (1 is set aside): two loads, one after the other.
    fn peek_both(&self, kind: Kind, word: u32) -> (u64, u64)
        requires { word < words (layout_of self.now kind) }
    {
        let map = self.map(kind);
        let found = map.peek(word);
        (found, map.peek_aside(word))
    }
}
