//! Enters and leaves wait groups, and loads what they count.
ghost use Rattle.std.specs.Prelude.{◌≡◌, ◌≤◌, ◌<◌, ◌∷◌, IfOk, IfSome, IfNone, IsSome, None};
ghost use Rattle.wake_book.specs.Waits.{active_at, index_at};
ghost use Rattle.wake_book.specs.Groups.{LeavesAs, IdlesOnce, RingsNobody, StandsSilent, wait_index_of};
ghost use Rattle.wake_book.specs.Book.{counted_by};
ghost use Rattle.wake_book.specs.declared.steps.BookStep.TheVariants.{LookCompletions, LookWakeups};
ghost use Rattle.wake_book.specs.declared.steps.GroupStep.TheVariants.{Look};
ghost use Rattle.tag_queue.specs.Hands.{IsHandOf, IsStillOf, SameInPool, SameTags, standing_of, book_steps, group_steps, teller_of, waiter_of};
ghost use Rattle.tag_queue.specs.Waits.{Enters};
ghost use Rattle.refusals.specs.Refusals.{RefusesBy};
ghost use Rattle.tag_queue.specs.Refusals.{wait_checks, leave_checks};

use crate::fault::WaitFault;
use crate::hand::QueueHand;
use crate::queue::Queue;
use std::sync::Wait;
use wake_book::{Groups, Left};

/// The counts of a queue and the state of its wait groups, as one hand loaded them.
#[derive(Clone, Copy, Debug, PartialEq, Eq)]
pub struct Wakes {
    /// Completions counted.
    pub counted: u64,
    /// Completions charged. They are loaded before `counted`, so they are at most as many.
    pub charged: u64,
    /// The wake index: the group that the next walk visits first, 0 to 7.
    pub index: u32,
    /// Number of active hands: those that are in a wait group, or entering or leaving one.
    pub active: u64,
}

impl<R: Copy> Queue<R> {
    /// Enters the wait group of the hand's wait index, advances that index, and returns the group, 0 to 7. `Waiting`
    /// means that the hand is already in one.
    pub fn prepare_wait(&self, hand: &mut QueueHand<R>) -> Result<u32, WaitFault>
        requires hand { IsHandOf self.now hand.old }
        ensures hand { IsStillOf self.now hand.old hand.new }
        ensures refusals { RefusesBy (wait_checks hand.old) (hand.new ≡ hand.old) result }
        ensures enters { IfOk result (λ group. Enters group hand.old hand.new) }
        ensures silent { RingsNobody (waiter_of hand.old) (waiter_of hand.new) }
    {
        if Groups::standing(&hand.waiter).is_some() {
            return Err(WaitFault::Waiting);
        }
        Ok(self.groups.enter(&mut hand.waiter))
    }

    /// Leaves the hand's wait group, and returns `Woken` if it used a grant there, `Unwoken` if it found none.
    /// `NotWaiting` means that the hand is in no group.
    pub fn finish_wait<W: Wait>(&self, rt: &W, hand: &mut QueueHand<R>) -> Result<Left, WaitFault>
        requires hand { IsHandOf self.now hand.old }
        ensures hand { IsStillOf self.now hand.old hand.new }
        ensures refusals { RefusesBy (leave_checks hand.old) (hand.new ≡ hand.old) result }
        ensures leaves { IfOk result (λ left. LeavesAs (waiter_of hand.old) (waiter_of hand.new) left) }
        ensures out { standing_of hand.new ≡ None }
        ensures next { wait_index_of (waiter_of hand.new) ≡ wait_index_of (waiter_of hand.old) }
        ensures silent { RingsNobody (waiter_of hand.old) (waiter_of hand.new) }
        ensures same { SameTags hand.old hand.new }
    {
        if Groups::standing(&hand.waiter).is_none() {
            return Err(WaitFault::NotWaiting);
        }
        Ok(self.groups.leave(rt, &mut hand.waiter))
    }

    /// Like `finish_wait`, but makes one try only, and so needs no `rt`. `None` means that the group's word changed
    /// meanwhile and that the hand is still in the group.
    pub fn try_finish_wait(&self, hand: &mut QueueHand<R>) -> Result<Option<Left>, WaitFault>
        requires hand { IsHandOf self.now hand.old }
        ensures hand { IsStillOf self.now hand.old hand.new }
        ensures refusals { RefusesBy (leave_checks hand.old) (hand.new ≡ hand.old) result }
        ensures leaves { IfOk result (λ answer. IfSome answer (LeavesAs (waiter_of hand.old) (waiter_of hand.new))) }
        ensures out { IfOk result (λ answer. IfSome answer (λ _. standing_of hand.new ≡ None)) }
        ensures stays { IfOk result (λ answer. IfNone answer (standing_of hand.new ≡ standing_of hand.old)) }
        ensures idle { IfOk result (λ answer. IfNone answer (IdlesOnce (waiter_of hand.old) (waiter_of hand.new))) }
        ensures next { wait_index_of (waiter_of hand.new) ≡ wait_index_of (waiter_of hand.old) }
        ensures silent { RingsNobody (waiter_of hand.old) (waiter_of hand.new) }
        ensures same { SameTags hand.old hand.new }
    {
        if Groups::standing(&hand.waiter).is_none() {
            return Err(WaitFault::NotWaiting);
        }
        Ok(self.groups.try_leave(&mut hand.waiter))
    }

    /// Loads the counts and the state of the wait groups, in four loads at different moments.
    pub fn wakes(&self, hand: &mut QueueHand<R>) -> Wakes
        requires hand { IsHandOf self.now hand.old }
        ensures hand { IsStillOf self.now hand.old hand.new }
        ensures counts { book_steps hand.new ≡ LookCompletions result.counted ∷ LookWakeups result.charged ∷ book_steps hand.old }
        ensures looks { group_steps hand.new ≡ Look active_at result.active ∷ Look index_at result.index ∷ group_steps hand.old }
        ensures ordered { result.charged ≤ result.counted }
        ensures within { result.index < 8 }
        ensures own { counted_by (teller_of hand.old) ≤ result.counted }
        ensures active { IsSome (standing_of hand.old) → 1 ≤ result.active }
        ensures same { SameInPool hand.old hand.new × StandsSilent (waiter_of hand.old) (waiter_of hand.new) }
    {
        let (counted, charged) = self.book.counts(&mut hand.teller);
        let index = self.groups.index(&mut hand.waiter);
        let active = self.groups.active(&mut hand.waiter);
        Wakes {
            counted,
            charged,
            index,
            active,
        }
    }

    /// Loads the number of active waiters, as each clear does. 0 means that the load found nobody waiting.
    #[inline]
    pub fn active(&self, hand: &mut QueueHand<R>) -> u64
        requires hand { IsHandOf self.now hand.old }
        ensures hand { IsStillOf self.now hand.old hand.new }
        ensures looks { group_steps hand.new ≡ Look active_at result ∷ group_steps hand.old }
        ensures own { IsSome (standing_of hand.old) → 1 ≤ result }
        ensures counts { teller_of hand.new ≡ teller_of hand.old }
        ensures same { SameInPool hand.old hand.new × StandsSilent (waiter_of hand.old) (waiter_of hand.new) }
    {
        self.groups.active(&mut hand.waiter)
    }

    /// Loads the counts and the state of the wait groups without a hand, in four loads at different moments. They are in
    /// no list of steps, so no clause says what they find.
    pub fn peek_wakes(&self) -> Wakes
        ensures ordered { result.charged ≤ result.counted }
        ensures within { result.index < 8 }
    {
        let (counted, charged) = self.book.peek_counts();
        Wakes {
            counted,
            charged,
            index: self.groups.peek_index(),
            active: self.groups.peek_active(),
        }
    }
}
