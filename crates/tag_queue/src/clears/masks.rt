//! Clears of the ordinary tags of a mask, as a batch get answers it.
ghost use Rattle.std.specs.Prelude.{◌≡◌, ◌+◌, ◌≤◌, count_ones, IfOk, OnOk};
ghost use Rattle.refusals.specs.Refusals.{RefusesBy};
ghost use Rattle.tag_pool.specs.Batches.{GivesBack, mask_words};
ghost use Rattle.tag_pool.specs.Hands.{back_of};
ghost use Rattle.tag_pool.specs.Masks.{tags_in};
ghost use Rattle.tag_pool.specs.Refusals.{mask_checks};
ghost use Rattle.tag_pool.specs.declared.kind.Kind.TheVariants.{Ordinary};
ghost use Rattle.tag_queue.specs.Clears.{CountsInGroups, complete_steps};
ghost use Rattle.tag_queue.specs.Hands.{IsHandOf, IsStillOf, in_pool, pool_of, step_count, waiter_of};

use crate::hand::QueueHand;
use crate::queue::Queue;
use tag_pool::TagFault;
use wake_book::Waking;

impl<R: Copy> Queue<R> {
    /// Clears the held ordinary tags of a mask, in which bit `i` is tag `first + i` as in the answer of `get_batch`, counts
    /// them if any hand waits in a group, and answers as `W` says whom this granted a wakeup. `BadCount` means that the mask
    /// is empty; `NoSuchTag` that a number is no ordinary tag's; `NotHeld` that the hand does not hold a tag. Nothing changes
    /// on an error.
    pub fn clear_mask<W: Waking>(
        &self,
        hand: &mut QueueHand<R>,
        first: u32,
        mask: u64,
    ) -> Result<W::Answer, TagFault>
        requires hand { IsHandOf self.now hand.old }
        ensures hand { IsStillOf self.now hand.old hand.new }
        ensures refusals { RefusesBy (mask_checks (pool_of self.now) (in_pool hand.old) first mask) (hand.new ≡ hand.old) result }
        ensures gives { OnOk result (GivesBack (pool_of self.now) (tags_in first mask) (in_pool hand.old) (in_pool hand.new)) }
        ensures back { OnOk result (
            back_of (in_pool hand.new) Ordinary ≡ back_of (in_pool hand.old) Ordinary + count_ones mask) }
        ensures counts { IfOk result (λ answer. CountsInGroups self.now (count_ones mask) hand.old hand.new (W.woken answer)) }
        ensures tells { IfOk result (λ answer. W.tells answer (waiter_of hand.old) (waiter_of hand.new)) }
        ensures bound { step_count hand.new
            ≤ mask_words (pool_of self.now) first mask + complete_steps + step_count hand.old }
    {
        self.pool.clear_mask_quietly(&mut hand.inner, first, mask)?;
        Ok(self.complete::<W>(hand, mask.count_ones()))
    }
}
