//! Gets over plain words. No other caller steps, so the answer is always the choice.
ghost use Rattle.std.specs.Prelude.{◌≡◌, ◌≤◌, false, IsTrue, IfSome};
ghost use Rattle.tag_layout.specs.Layout.{word_bits, word_of};
ghost use Rattle.tag_search.specs.Batch.{batch_words};
ghost use Rattle.tag_search.specs.Choice.{IsHeld, HoldsRun, IsChoice, IsBatchChoice};
ghost use Rattle.tag_search.specs.Follows.{HintFollows, BatchFollows};
ghost use Rattle.tag_search.specs.Hints.{reduced};
ghost use Rattle.tag_search.specs.Plain.{plain_words};
ghost use Rattle.tag_search.specs.Pool.{pool_of, IsApart};
ghost use Rattle.tag_search.specs.Visits.{plain_visits, shallow_visits};

use crate::hint::Hint;
use crate::plain::PlainPort;
use crate::search::{get, get_batch, get_shallow};

impl PlainPort {
    /// Takes a free tag, or else one set aside, of the first word from the hint on that has one. `None` if no word has.
    pub fn choose(&mut self, hint: &mut Hint) -> Option<u32>
        ensures layout { self.new.layout ≡ self.old.layout }
        ensures choice { let l = self.old.layout in
            let visits = plain_visits l hint.old.round_robin (reduced l.depth hint.old.at) in
            IsChoice l (pool_of (plain_words self.old)) visits result (pool_of (plain_words self.new)) }
        ensures held { IsApart (pool_of (plain_words self.old)) → let left = pool_of (plain_words self.new) in
            IsApart left × IfSome result (IsHeld self.old.layout left) }
        ensures hint { HintFollows self.old.layout.depth hint.old hint.new result }
    {
        let Ok(answer) = get(self, hint) else {
            unreachable!()
        };
        answer
    }

    /// As `choose`, limited to `depth` tags, which are distributed over the words.
    pub fn choose_shallow(&mut self, hint: &mut Hint, depth: u32) -> Option<u32>
        ensures layout { self.new.layout ≡ self.old.layout }
        ensures choice { let l = self.old.layout in
            let visits = shallow_visits l depth (reduced l.depth hint.old.at) in
            IsChoice l (pool_of (plain_words self.old)) visits result (pool_of (plain_words self.new)) }
        ensures held { IsApart (pool_of (plain_words self.old)) → let left = pool_of (plain_words self.new) in
            IsApart left × IfSome result (IsHeld self.old.layout left) }
        ensures hint { HintFollows self.old.layout.depth hint.old hint.new result }
    {
        let Ok(answer) = get_shallow(self, hint, depth) else {
            unreachable!()
        };
        answer
    }

    /// Takes those of `n` adjacent tags that are free or set aside, in the first word from the hint on that has `n`
    /// places from its first such tag on. Returns that tag and the mask of those taken, whose lowest bit is that tag.
    /// Under round robin it takes none.
    pub fn choose_batch(&mut self, hint: &mut Hint, n: u32) -> Option<(u32, u64)>
        requires count { (1 ≤ n) × (n ≤ word_bits self.old.layout) }
        ensures layout { self.new.layout ≡ self.old.layout }
        ensures round_robin { IsTrue hint.old.round_robin → (result ≡ None) × (self.new ≡ self.old) × (hint.new ≡ hint.old) }
        ensures choice { hint.old.round_robin ≡ false → let l = self.old.layout in
            let words = batch_words l (word_of l (reduced l.depth hint.old.at)) in
            IsBatchChoice l n (pool_of (plain_words self.old)) words result (pool_of (plain_words self.new)) }
        ensures held { hint.old.round_robin ≡ false → IsApart (pool_of (plain_words self.old)) →
            let left = pool_of (plain_words self.new) in IsApart left × IfSome result (HoldsRun self.old.layout left) }
        ensures hint { hint.old.round_robin ≡ false → BatchFollows self.old.layout.depth n hint.old hint.new result }
    {
        let Ok(answer) = get_batch(self, hint, n) else {
            unreachable!()
        };
        answer
    }
}
