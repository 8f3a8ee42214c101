//! Clears of one tag.
ghost use Rattle.std.specs.Prelude.{◌≡◌, ◌+◌, ◌≤◌, IfOk};
ghost use Rattle.tag_pool.specs.Hands.{IsHandOf, IsStillOf, Holds, back_of, reserved_of, step_count};
ghost use Rattle.tag_pool.specs.Clears.{Clears, DoesClear};
ghost use Rattle.tag_pool.specs.Sets.{kind_of};

use crate::fault::TagFault;
use crate::hand::Hand;
use crate::kind::Kind;
use crate::pool::Pool;

pub(crate) mod batches;
pub(crate) mod lists;
mod masks;

impl<R: Copy> Pool<R> {
    /// Clears a held tag, and tells nobody: the caller has to see to it, among tags of its kind. As in
    /// `sbitmap_queue_clear` (lib/sbitmap.c) the tag is only set aside: the next sweep of its word frees it. Returns the
    /// tag's kind. `NoSuchTag` means that the number is not below the total, `NotHeld` that the hand does not hold the tag;
    /// nothing changes then.
    #[inline]
    pub fn clear_quietly(&self, hand: &mut Hand<R>, tag: u32) -> Result<Kind, TagFault>
        requires hand { IsHandOf self.now hand.old }
        ensures hand { IsStillOf self.now hand.old hand.new }
        ensures does { DoesClear tag self.now result hand.old hand.new }
    {
        if tag < hand.reserved_count {
            hand.reserved.clear(&self.reserved, tag)?;
            return Ok(Kind::Reserved);
        }
        hand.ordinary
            .clear(&self.ordinary, tag - hand.reserved_count)?;
        Ok(Kind::Ordinary)
    }

    /// Clears a tag that the hand holds, like `clear_quietly` but for the checks.
    #[inline]
    pub fn clear_held_quietly(&self, hand: &mut Hand<R>, tag: u32)
        requires hand { IsHandOf self.now hand.old }
        requires held { Holds hand.old tag }
        ensures hand { IsStillOf self.now hand.old hand.new }
        ensures clears { Clears self.now tag hand.old hand.new }
        ensures back { let kind = kind_of (reserved_of self.now) tag in back_of hand.new kind ≡ back_of hand.old kind + 1 }
        ensures bound { step_count hand.new ≡ 1 + step_count hand.old }
    {
        // A branch for each set takes fewer instructions than set and number as one value, or a loan of the tag's side.
        if tag < self.reserved_count {
            hand.reserved.put(&self.reserved, tag)
        } else {
            hand.ordinary.put(&self.ordinary, tag - self.reserved_count)
        }
    }
}
