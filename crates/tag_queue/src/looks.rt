//! Reports of the queue's tags, and what hands can prove together: calls of the pool, by which nothing is counted.
ghost use Rattle.std.specs.Prelude.{◌*◌, ◌+◌, ◌≡◌, ◌≢◌, ◌≤◌, length, ℕ};
ghost use Rattle.tag_layout.specs.Layout.{words};
ghost use Rattle.tag_pool.specs.Bits.{bit_in};
ghost use Rattle.tag_pool.specs.Busy.{ListsBusy};
ghost use Rattle.tag_pool.specs.Dumps.{Dumps};
ghost use Rattle.tag_pool.specs.Hands.{Holds, layout_of, total_of};
ghost use Rattle.tag_pool.specs.Holding.{IsUnchanged};
ghost use Rattle.tag_pool.specs.Meeting.{ShareHistories};
ghost use Rattle.tag_pool.specs.Placing.{IsPlaced};
ghost use Rattle.tag_pool.specs.Shows.{Shows};
ghost use Rattle.tag_pool.specs.declared.kind.Kind.TheVariants.{Ordinary, Reserved};
ghost use Rattle.tag_queue.specs.Hands.{IsHandOf, IsStillOf, SameCounts, in_pool, number_of, pool_of, step_count};

use crate::hand::QueueHand;
use crate::queue::Queue;
use tag_pool::{Kind, Shown};

impl<R: Copy> Queue<R> {
    /// Lists the busy tags as `Pool::busy` does, and returns how many there are.
    pub fn busy(&self, hand: &mut QueueHand<R>, into: &mut [u64]) -> u32
        requires hand { IsHandOf self.now hand.old }
        requires room { total_of (pool_of self.now) ≤ 64 * length into.old }
        ensures hand { IsStillOf self.now hand.old hand.new }
        ensures lists { ListsBusy (pool_of self.now) into.new result (in_pool hand.old) (in_pool hand.new) }
        ensures room { length into.new ≡ length into.old }
        ensures held { (tag : ℕ) → Holds (in_pool hand.old) tag → bit_in 64 into.new tag ≡ 1 }
        ensures counts { SameCounts hand.old hand.new }
        ensures bound { let layout = layout_of (pool_of self.now) in
            step_count hand.new ≤ 2 * (words (layout Reserved) + words (layout Ordinary)) + step_count hand.old }
    {
        self.pool.busy(&mut hand.inner, into)
    }

    /// Returns the sizes of a set and the counts of its busy tags, as `Pool::show` does.
    pub fn show(&self, hand: &mut QueueHand<R>, kind: Kind) -> Shown
        requires hand { IsHandOf self.now hand.old }
        ensures hand { IsStillOf self.now hand.old hand.new }
        ensures shows { Shows (pool_of self.now) kind result (in_pool hand.old) (in_pool hand.new) }
        ensures counts { SameCounts hand.old hand.new }
        ensures bound { step_count hand.new ≤ 2 * words (layout_of (pool_of self.now) kind) + step_count hand.old }
    {
        self.pool.show(&mut hand.inner, kind)
    }

    /// Writes the busy tags of a set as bytes, and returns how many, as `Pool::dump` does.
    pub fn dump(&self, hand: &mut QueueHand<R>, kind: Kind, into: &mut [u8]) -> u32
        requires hand { IsHandOf self.now hand.old }
        requires room { (layout_of (pool_of self.now) kind).depth ≤ 8 * length into.old }
        ensures hand { IsStillOf self.now hand.old hand.new }
        ensures dumps { Dumps (layout_of (pool_of self.now) kind) kind into.old into.new result (in_pool hand.old) (in_pool hand.new) }
        ensures counts { SameCounts hand.old hand.new }
        ensures bound { step_count hand.new ≤ 2 * words (layout_of (pool_of self.now) kind) + step_count hand.old }
    {
        self.pool.dump(&mut hand.inner, kind, into)
    }

    /// Moves the hand's hint in each set to the first tag of its own part, as `Pool::place` does.
    pub fn place(&self, hand: &mut QueueHand<R>)
        requires { IsHandOf self.now hand.old }
        ensures hand { IsStillOf self.now hand.old hand.new }
        ensures placed { IsPlaced (pool_of self.now) (in_pool hand.old) (in_pool hand.new) }
        ensures counts { SameCounts hand.old hand.new }
    {
        self.pool.place(&mut hand.inner);
    }

    /// Establishes that two hands hold no tag in common, and that their own steps in each set are part of one history. It
    /// changes nothing.
    pub fn meet(&self, first: &mut QueueHand<R>, second: &mut QueueHand<R>)
        requires hands { IsHandOf self.now first.old × IsHandOf self.now second.old }
        ensures hands { IsStillOf self.now first.old first.new × IsStillOf self.now second.old second.new }
        ensures apart { (tag : ℕ) → Holds (in_pool first.new) tag → ¬ (Holds (in_pool second.new) tag) }
        ensures numbers { number_of first.new ≢ number_of second.new }
        ensures histories { ShareHistories (pool_of self.now) (in_pool first.new) (in_pool second.new) }
        ensures unchanged { IsUnchanged (in_pool first.old) (in_pool first.new)
            × IsUnchanged (in_pool second.old) (in_pool second.new) }
        ensures counts { SameCounts first.old first.new × SameCounts second.old second.new }
    {
        self.pool.meet(&mut first.inner, &mut second.inner);
    }

    /// Establishes that the second hand does not hold a tag that the first one holds. This makes no step.
    pub fn apart(&self, first: &mut QueueHand<R>, second: &mut QueueHand<R>, tag: u32)
        requires hands { IsHandOf self.now first.old × IsHandOf self.now second.old }
        requires held { Holds (in_pool first.old) tag }
        ensures apart { ¬ (Holds (in_pool second.old) tag) }
        ensures same { (first.new ≡ first.old) × (second.new ≡ second.old) }
    {
        self.pool.apart(&mut first.inner, &mut second.inner, tag);
    }
}
