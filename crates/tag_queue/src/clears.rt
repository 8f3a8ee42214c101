//! Clears: tags are given back to the pool, counted, and waiters granted a wakeup.
ghost use Rattle.std.specs.Prelude.{◌≡◌, ◌+◌, ◌≤◌, length, IfOk, OnOk};
ghost use Rattle.refusals.specs.Refusals.{RefusesBy};
ghost use Rattle.tag_pool.specs.Clears.{Clears};
ghost use Rattle.tag_pool.specs.Batches.{GivesBack};
ghost use Rattle.tag_pool.specs.Hands.{Holds, reserved_of, back_of};
ghost use Rattle.tag_pool.specs.Refusals.{list_checks, tag_checks};
ghost use Rattle.tag_pool.specs.Sets.{kind_of};
ghost use Rattle.tag_pool.specs.declared.kind.Kind.TheVariants.{Ordinary};
ghost use Rattle.wake_book.specs.Book.{counted_by};
ghost use Rattle.wake_book.specs.Groups.{GrantsUnrung, StandsAsBefore};
ghost use Rattle.tag_queue.specs.Hands.{IsHandOf, IsStillOf, SameInPool, SameTags, pool_of, in_pool, teller_of, waiter_of, sighting_of, group_steps, step_count};
ghost use Rattle.tag_queue.specs.Clears.{Counts, CountsInGroups, ChargesNow, GrantsNone, charge_steps, complete_steps};

use crate::hand::QueueHand;
use crate::queue::Queue;
use tag_pool::{Kind, TagFault};
use wake_book::{Charge, Grants, NO_GRANTS, Waking};

mod masks;

impl<R: Copy> Queue<R> {
    /// Clears a held tag, counts an ordinary one if any hand waits in a group, and answers as `W` says whom this granted a
    /// wakeup, nobody for a reserved tag. It is refused as the pool refuses: `NoSuchTag`, `NotHeld`; nothing changes then.
    #[inline]
    pub fn clear<W: Waking>(&self, hand: &mut QueueHand<R>, tag: u32) -> Result<W::Answer, TagFault>
        requires hand { IsHandOf self.now hand.old }
        ensures hand { IsStillOf self.now hand.old hand.new }
        ensures refusals { RefusesBy (tag_checks (pool_of self.now) (in_pool hand.old) tag) (hand.new ≡ hand.old) result }
        ensures clears { OnOk result (Clears (pool_of self.now) tag (in_pool hand.old) (in_pool hand.new)) }
        ensures counts { IfOk result (λ answer.
            Counts self.now (kind_of (reserved_of (pool_of self.now)) tag) 1 hand.old hand.new (W.woken answer)) }
        ensures tells { IfOk result (λ answer. W.tells answer (waiter_of hand.old) (waiter_of hand.new)) }
        ensures bound { step_count hand.new ≤ 1 + complete_steps + step_count hand.old }
    {
        match self.pool.clear_quietly(&mut hand.inner, tag)? {
            Kind::Reserved => Ok(W::nobody()),
            Kind::Ordinary => Ok(self.complete::<W>(hand, 1)),
        }
    }

    /// Clears a tag that the hand holds, like `clear` but for the checks.
    #[inline]
    pub fn clear_held<W: Waking>(&self, hand: &mut QueueHand<R>, tag: u32) -> W::Answer
        requires hand { IsHandOf self.now hand.old }
        requires held { Holds (in_pool hand.old) tag }
        ensures hand { IsStillOf self.now hand.old hand.new }
        ensures clears { Clears (pool_of self.now) tag (in_pool hand.old) (in_pool hand.new) }
        ensures counts { Counts self.now (kind_of (reserved_of (pool_of self.now)) tag) 1 hand.old hand.new (W.woken result) }
        ensures tells { W.tells result (waiter_of hand.old) (waiter_of hand.new) }
        ensures bound { step_count hand.new ≤ 1 + complete_steps + step_count hand.old }
    {
        self.pool.clear_held_quietly(&mut hand.inner, tag);
        match self.pool.kind(tag) {
            Kind::Reserved => W::nobody(),
            Kind::Ordinary => self.complete::<W>(hand, 1),
        }
    }

    /// Clears 1 to 64 held ordinary tags, counts them if any hand waits in a group, and answers as `W` says whom this
    /// granted a wakeup. `BadCount` means no tag, or more than 64; `NoSuchTag` that a number is no ordinary tag's;
    /// `NotHeld` that a tag is not held or named twice. Nothing changes on an error.
    pub fn clear_batch<W: Waking>(
        &self,
        hand: &mut QueueHand<R>,
        tags: &[u32],
    ) -> Result<W::Answer, TagFault>
        requires hand { IsHandOf self.now hand.old }
        ensures hand { IsStillOf self.now hand.old hand.new }
        ensures refusals { RefusesBy (list_checks (pool_of self.now) (in_pool hand.old) tags.now) (hand.new ≡ hand.old) result }
        ensures gives { OnOk result (GivesBack (pool_of self.now) tags.now (in_pool hand.old) (in_pool hand.new)) }
        ensures back { OnOk result (
            back_of (in_pool hand.new) Ordinary ≡ back_of (in_pool hand.old) Ordinary + length tags.now) }
        ensures counts { IfOk result (λ answer. CountsInGroups self.now (length tags.now) hand.old hand.new (W.woken answer)) }
        ensures tells { IfOk result (λ answer. W.tells answer (waiter_of hand.old) (waiter_of hand.new)) }
        ensures bound { step_count hand.new ≤ length tags.now + complete_steps + step_count hand.old }
    {
        self.pool.clear_batch_quietly(&mut hand.inner, tags)?;
        Ok(self.complete::<W>(hand, tags.len() as u32))
    }

    /// Counts `n` ordinary tags given back if anybody is active, and grants up to a batch of wakeups if it charged one. The
    /// look is a sighting, so that a contract can say that it came after the tags were given back.
    #[inline]
    pub(crate) fn complete<W: Waking>(&self, hand: &mut QueueHand<R>, n: u32) -> W::Answer
        requires hand { IsHandOf self.now hand.old }
        requires within { (1 ≤ n) × (n ≤ 64) }
        requires came_back { counted_by (teller_of hand.old) + n ≤ back_of (in_pool hand.old) Ordinary }
        ensures hand { IsStillOf self.now hand.old hand.new }
        ensures counts { CountsInGroups self.now n hand.old hand.new (W.woken result) }
        ensures tells { W.tells result (waiter_of hand.old) (waiter_of hand.new) }
        ensures others { SameInPool hand.old hand.new }
        ensures bound { step_count hand.new ≤ complete_steps + step_count hand.old }
    {
        let (found, sighting) = self.groups.sight(&mut hand.waiter, &hand.inner);
        hand.sighting = sighting;
        if found == 0 {
            return W::nobody();
        }
        self.charge_and_tell::<W>(hand, n)
    }

    /// Counts tags that came back, and grants up to a batch of wakeups if it charged one. It is out of line, so that a
    /// clear is short, and needs no memory, where nobody waits.
    #[inline(never)]
    fn charge_and_tell<W: Waking>(&self, hand: &mut QueueHand<R>, n: u32) -> W::Answer
        requires hand { IsHandOf self.now hand.old }
        requires within { (1 ≤ n) × (n ≤ 64) }
        requires came_back { counted_by (teller_of hand.old) + n ≤ back_of (in_pool hand.old) Ordinary }
        ensures hand { IsStillOf self.now hand.old hand.new }
        ensures charges { ChargesNow self.now n hand.old hand.new (W.woken result) }
        ensures tells { (before : QueueHand R) → GrantsNone before hand.old → W.tells result (waiter_of before) (waiter_of hand.new) }
        ensures others { SameInPool hand.old hand.new }
        ensures sighted { sighting_of hand.new ≡ sighting_of hand.old }
        ensures bound { step_count hand.new ≤ charge_steps + step_count hand.old }
    {
        let grants = self.charge(hand, n);
        self.tell::<W>(hand, grants)
    }

    /// Counts tags that came back, and grants up to a batch of wakeups if it charged one.
    #[inline(never)]
    fn charge(&self, hand: &mut QueueHand<R>, n: u32) -> Grants
        requires hand { IsHandOf self.now hand.old }
        requires within { (1 ≤ n) × (n ≤ 64) }
        requires came_back { counted_by (teller_of hand.old) + n ≤ back_of (in_pool hand.old) Ordinary }
        ensures hand { IsStillOf self.now hand.old hand.new }
        ensures charges { ChargesNow self.now n hand.old hand.new result.woken }
        ensures grants { GrantsUnrung result (waiter_of hand.old) (waiter_of hand.new) }
        ensures others { SameInPool hand.old hand.new }
        ensures sighted { sighting_of hand.new ≡ sighting_of hand.old }
        ensures bound { step_count hand.new ≤ charge_steps + step_count hand.old }
    {
        match self.book.count(&mut hand.teller, n) {
            Charge::Won(_) => self.groups.walk(&mut hand.waiter, self.batch),
            _ => NO_GRANTS,
        }
    }

    /// Passes grants on as `W` does, and answers as it says. The grants of a call are passed to it once. This makes no
    /// step.
    #[inline]
    pub fn tell<W: Waking>(&self, hand: &mut QueueHand<R>, grants: Grants) -> W::Answer
        requires hand { IsHandOf self.now hand.old }
        ensures hand { IsStillOf self.now hand.old hand.new }
        ensures woken { W.woken result ≡ grants.woken }
        ensures tells { (before : QueueHand R) → GrantsUnrung grants (waiter_of before) (waiter_of hand.old)
            → W.tells result (waiter_of before) (waiter_of hand.new) }
        ensures passes { W.passes grants (waiter_of hand.old) (waiter_of hand.new) }
        ensures none { grants.woken ≡ 0 → waiter_of hand.new ≡ waiter_of hand.old }
        ensures steps { group_steps hand.new ≡ group_steps hand.old }
        ensures stands { StandsAsBefore (waiter_of hand.old) (waiter_of hand.new) }
        ensures others { SameTags hand.old hand.new }
        ensures sighted { sighting_of hand.new ≡ sighting_of hand.old }
    {
        W::tell(&self.groups, &mut hand.waiter, grants)
    }
}
