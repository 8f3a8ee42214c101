//! The slots of held tags, and how tags pass from hand to hand.
ghost use Rattle.std.specs.Prelude.{◌≡◌, ◌<◌, ◌≤◌, IsTrue, IsFalse};
ghost use mathlib.Core.Option.{some};
ghost use Rattle.tag_pool.specs.Hands.{IsHandOf, IsStillOf, Holds, slot_of, split_of, total_of};
ghost use Rattle.tag_core.specs.declared.posts.TheConstants.{MOST_NOTE};
ghost use Rattle.tag_pool.specs.Slots.{Reads, ReadsNote, Writes, Posts, Takes, Misses, DoesRead, DoesReadNote, DoesWrite, DoesPost, DoesTake};

use crate::fault::TagFault;
use crate::hand::Hand;
use crate::pool::Pool;

impl<R: Copy> Pool<R> {
    /// Returns the value in the slot of a held tag. `NoSuchTag` means that the number is not below the total, `NotHeld`
    /// that the hand does not hold the tag; nothing changes then.
    #[inline]
    pub fn read(&self, hand: &mut Hand<R>, tag: u32) -> Result<R, TagFault>
        requires hand { IsHandOf self.now hand.old }
        ensures hand { IsStillOf self.now hand.old hand.new }
        ensures does { DoesRead tag self.now result hand.old hand.new }
    {
        self.find_held(hand, tag)?;
        Ok(self.read_held(hand, tag))
    }

    /// Writes the slot of a held tag, and returns its former value. `NoSuchTag` means that the number is not below the
    /// total, `NotHeld` that the hand does not hold the tag; nothing changes then.
    #[inline]
    pub fn write(&self, hand: &mut Hand<R>, tag: u32, value: R) -> Result<R, TagFault>
        requires hand { IsHandOf self.now hand.old }
        ensures hand { IsStillOf self.now hand.old hand.new }
        ensures does { DoesWrite tag value self.now result hand.old hand.new }
    {
        self.find_held(hand, tag)?;
        Ok(self.write_held(hand, tag, value))
    }

    /// Gives up a held tag with its slot, so that another hand can `take` it. Whichever hand takes it first gets it.
    /// `NoSuchTag` means that the number is not below the total, `NotHeld` that the hand does not hold the tag; nothing
    /// changes then.
    #[inline]
    pub fn post(&self, hand: &mut Hand<R>, tag: u32) -> Result<(), TagFault>
        requires hand { IsHandOf self.now hand.old }
        ensures hand { IsStillOf self.now hand.old hand.new }
        ensures does { DoesPost tag 0 self.now result hand.old hand.new }
    {
        self.post_noted(hand, tag, 0)
    }

    /// Gives up a held tag as `post` does, with a note, which any hand may read until the tag is taken: what the tag is used
    /// for, or since when. A note is at most `MOST_NOTE`. A tag that is posted without a note has note 0.
    #[inline]
    pub fn post_noted(&self, hand: &mut Hand<R>, tag: u32, note: u64) -> Result<(), TagFault>
        requires hand { IsHandOf self.now hand.old }
        requires note { note ≤ MOST_NOTE }
        ensures hand { IsStillOf self.now hand.old hand.new }
        ensures does { DoesPost tag note self.now result hand.old hand.new }
    {
        self.find_held(hand, tag)?;
        self.post_held(hand, tag, note);
        Ok(())
    }

    /// Returns the note of a posted tag, whichever hand posted it, or `None` if the tag is not posted. It is that of the tag's
    /// last post at the moment of this look, never that of an earlier one. `NoSuchTag` means that the number is not below
    /// the total.
    #[inline]
    pub fn read_note(&self, hand: &mut Hand<R>, tag: u32) -> Result<Option<u64>, TagFault>
        requires hand { IsHandOf self.now hand.old }
        ensures hand { IsStillOf self.now hand.old hand.new }
        ensures does { DoesReadNote tag self.now result hand.old hand.new }
    {
        self.find(tag)?;
        Ok(self.look_at_note(hand, tag))
    }

    /// Takes a posted tag with its slot. `NotPosted` leaves the hand unchanged except for one step in its list.
    /// `NoSuchTag` means that the number is not below the total.
    #[inline]
    pub fn take(&self, hand: &mut Hand<R>, tag: u32) -> Result<(), TagFault>
        requires hand { IsHandOf self.now hand.old }
        ensures hand { IsStillOf self.now hand.old hand.new }
        ensures does { DoesTake tag self.now result hand.old hand.new }
    {
        self.find(tag)?;
        if !self.take_posted(hand, tag) {
            return Err(TagFault::NotPosted);
        }
        Ok(())
    }

    /// Returns the value in the slot of a tag that the hand holds.
    #[inline]
    pub fn read_held(&self, hand: &mut Hand<R>, tag: u32) -> R
        requires hand { IsHandOf self.now hand.old }
        requires held { Holds hand.old tag }
        ensures hand { IsStillOf self.now hand.old hand.new }
        ensures value { slot_of hand.old tag ≡ some result }
        ensures reads { Reads tag result hand.old hand.new }
    {
        if tag < self.reserved_count {
            hand.reserved.read(&self.reserved, tag)
        } else {
            hand.ordinary
                .read(&self.ordinary, tag - self.reserved_count)
        }
    }

    /// Writes the slot of a tag that the hand holds, and returns its former value.
    #[inline]
    pub fn write_held(&self, hand: &mut Hand<R>, tag: u32, value: R) -> R
        requires hand { IsHandOf self.now hand.old }
        requires held { Holds hand.old tag }
        ensures hand { IsStillOf self.now hand.old hand.new }
        ensures former { slot_of hand.old tag ≡ some result }
        ensures writes { Writes tag value hand.old hand.new }
    {
        if tag < self.reserved_count {
            hand.reserved.write(&self.reserved, tag, value)
        } else {
            hand.ordinary
                .write(&self.ordinary, tag - self.reserved_count, value)
        }
    }

    /// Writes the slot of an ordinary tag that the hand holds, and returns its former value: like `write_held`, but it need
    /// not find the tag's set.
    #[inline]
    pub fn write_ordinary_held(&self, hand: &mut Hand<R>, tag: u32, value: R) -> R
        requires hand { IsHandOf self.now hand.old }
        requires held { Holds hand.old tag }
        requires ordinary { split_of hand.old ≤ tag }
        ensures hand { IsStillOf self.now hand.old hand.new }
        ensures former { slot_of hand.old tag ≡ some result }
        ensures writes { Writes tag value hand.old hand.new }
    {
        let number = tag - self.reserved_count;
        hand.ordinary.write(&self.ordinary, number, value)
    }

    /// Posts a tag that the hand holds, with a note.
    #[inline]
    fn post_held(&self, hand: &mut Hand<R>, tag: u32, note: u64)
        requires hand { IsHandOf self.now hand.old }
        requires held { Holds hand.old tag }
        requires note { note ≤ MOST_NOTE }
        ensures hand { IsStillOf self.now hand.old hand.new }
        ensures posts { Posts tag note hand.old hand.new }
    {
        if tag < self.reserved_count {
            hand.reserved.post(&self.reserved, tag, note)
        } else {
            hand.ordinary
                .post(&self.ordinary, tag - self.reserved_count, note)
        }
    }

    /// Loads the note of a tag, if it is posted.
    #[inline]
    fn look_at_note(&self, hand: &mut Hand<R>, tag: u32) -> Option<u64>
        requires hand { IsHandOf self.now hand.old }
        requires within { tag < total_of self.now }
        ensures hand { IsStillOf self.now hand.old hand.new }
        ensures reads { ReadsNote tag result hand.old hand.new }
    {
        if tag < self.reserved_count {
            hand.reserved.read_note(&self.reserved, tag)
        } else {
            hand.ordinary
                .read_note(&self.ordinary, tag - self.reserved_count)
        }
    }

    /// Takes a tag with its slot, and returns true, if it is posted.
    #[inline]
    fn take_posted(&self, hand: &mut Hand<R>, tag: u32) -> bool
        requires hand { IsHandOf self.now hand.old }
        requires within { tag < total_of self.now }
        ensures hand { IsStillOf self.now hand.old hand.new }
        ensures takes { IsTrue result → Takes tag hand.old hand.new }
        ensures misses { IsFalse result → Misses tag hand.old hand.new }
    {
        if tag < self.reserved_count {
            hand.reserved.take(&self.reserved, tag)
        } else {
            hand.ordinary
                .take(&self.ordinary, tag - self.reserved_count)
        }
    }
}
