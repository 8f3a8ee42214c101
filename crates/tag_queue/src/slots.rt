//! The slots of held tags, and how tags pass from hand to hand: calls of the pool, by which nothing is counted.
ghost use Rattle.std.specs.Prelude.{◌≡◌, ◌≤◌, IfErr, OnErr};
ghost use Rattle.tag_core.specs.declared.posts.TheConstants.{MOST_NOTE};
ghost use Rattle.tag_pool.specs.Slots.{DoesPost, DoesRead, DoesReadNote, DoesTake, DoesWrite, Reads, Writes};
ghost use Rattle.tag_pool.specs.Hands.{Holds, slot_of};
ghost use Rattle.tag_pool.specs.declared.fault.TagFault.TheVariants.{NoSuchTag};
ghost use mathlib.Core.Option.{some};
ghost use Rattle.tag_queue.specs.Hands.{IsHandOf, IsStillOf, SameCounts, in_pool, pool_of};

use crate::hand::QueueHand;
use crate::queue::Queue;
use tag_pool::TagFault;

impl<R: Copy> Queue<R> {
    /// Returns the value in the slot of a held tag, and is refused, as `Pool::read`.
    #[inline]
    pub fn read(&self, hand: &mut QueueHand<R>, tag: u32) -> Result<R, TagFault>
        requires hand { IsHandOf self.now hand.old }
        ensures hand { IsStillOf self.now hand.old hand.new }
        ensures does { DoesRead tag (pool_of self.now) result (in_pool hand.old) (in_pool hand.new) }
        ensures counts { SameCounts hand.old hand.new }
        ensures err { OnErr result (hand.new ≡ hand.old) }
    {
        self.pool.read(&mut hand.inner, tag)
    }

    /// Returns the value in the slot of a tag that the hand holds, without the checks.
    #[inline]
    pub fn read_held(&self, hand: &mut QueueHand<R>, tag: u32) -> R
        requires hand { IsHandOf self.now hand.old }
        requires held { Holds (in_pool hand.old) tag }
        ensures hand { IsStillOf self.now hand.old hand.new }
        ensures value { slot_of (in_pool hand.old) tag ≡ some result }
        ensures reads { Reads tag result (in_pool hand.old) (in_pool hand.new) }
        ensures counts { SameCounts hand.old hand.new }
    {
        self.pool.read_held(&mut hand.inner, tag)
    }

    /// Writes the slot of a held tag, and returns its former value, and is refused, as `Pool::write`.
    #[inline]
    pub fn write(&self, hand: &mut QueueHand<R>, tag: u32, value: R) -> Result<R, TagFault>
        requires hand { IsHandOf self.now hand.old }
        ensures hand { IsStillOf self.now hand.old hand.new }
        ensures does { DoesWrite tag value (pool_of self.now) result (in_pool hand.old) (in_pool hand.new) }
        ensures counts { SameCounts hand.old hand.new }
        ensures err { OnErr result (hand.new ≡ hand.old) }
    {
        self.pool.write(&mut hand.inner, tag, value)
    }

    /// Writes the slot of a tag that the hand holds, without the checks, and returns its former value.
    #[inline]
    pub fn write_held(&self, hand: &mut QueueHand<R>, tag: u32, value: R) -> R
        requires hand { IsHandOf self.now hand.old }
        requires held { Holds (in_pool hand.old) tag }
        ensures hand { IsStillOf self.now hand.old hand.new }
        ensures former { slot_of (in_pool hand.old) tag ≡ some result }
        ensures writes { Writes tag value (in_pool hand.old) (in_pool hand.new) }
        ensures counts { SameCounts hand.old hand.new }
    {
        self.pool.write_held(&mut hand.inner, tag, value)
    }

    /// Gives up a held tag with its slot, so that another hand can take it, and is refused, as `Pool::post`.
    #[inline]
    pub fn post(&self, hand: &mut QueueHand<R>, tag: u32) -> Result<(), TagFault>
        requires hand { IsHandOf self.now hand.old }
        ensures hand { IsStillOf self.now hand.old hand.new }
        ensures does { DoesPost tag 0 (pool_of self.now) result (in_pool hand.old) (in_pool hand.new) }
        ensures counts { SameCounts hand.old hand.new }
        ensures err { OnErr result (hand.new ≡ hand.old) }
    {
        self.pool.post(&mut hand.inner, tag)
    }

    /// Gives up a held tag with its slot and a note that any hand may read, and is refused, as `Pool::post_noted`.
    #[inline]
    pub fn post_noted(&self, hand: &mut QueueHand<R>, tag: u32, note: u64) -> Result<(), TagFault>
        requires hand { IsHandOf self.now hand.old }
        requires note { note ≤ MOST_NOTE }
        ensures hand { IsStillOf self.now hand.old hand.new }
        ensures does { DoesPost tag note (pool_of self.now) result (in_pool hand.old) (in_pool hand.new) }
        ensures counts { SameCounts hand.old hand.new }
        ensures err { OnErr result (hand.new ≡ hand.old) }
    {
        self.pool.post_noted(&mut hand.inner, tag, note)
    }

    /// Returns the note of a posted tag, or `None` if it is not posted, and is refused, as `Pool::read_note`.
    #[inline]
    pub fn read_note(&self, hand: &mut QueueHand<R>, tag: u32) -> Result<Option<u64>, TagFault>
        requires hand { IsHandOf self.now hand.old }
        ensures hand { IsStillOf self.now hand.old hand.new }
        ensures does { DoesReadNote tag (pool_of self.now) result (in_pool hand.old) (in_pool hand.new) }
        ensures counts { SameCounts hand.old hand.new }
        ensures err { OnErr result (hand.new ≡ hand.old) }
    {
        self.pool.read_note(&mut hand.inner, tag)
    }

    /// Takes a posted tag with its slot, and is refused, as `Pool::take`.
    #[inline]
    pub fn take(&self, hand: &mut QueueHand<R>, tag: u32) -> Result<(), TagFault>
        requires hand { IsHandOf self.now hand.old }
        ensures hand { IsStillOf self.now hand.old hand.new }
        ensures does { DoesTake tag (pool_of self.now) result (in_pool hand.old) (in_pool hand.new) }
        ensures counts { SameCounts hand.old hand.new }
        ensures unchanged { IfErr result (λ fault. (fault ≡ NoSuchTag) → (hand.new ≡ hand.old)) }
    {
        self.pool.take(&mut hand.inner, tag)
    }
}
