//! Blocking gets: a hand that finds no tag stays in a wait group until it is woken, and searches again.
ghost use Rattle.std.specs.Prelude.{◌≡◌, ℕ, IfOk, Some, None};
ghost use Rattle.wake_book.specs.Groups.{IsWaiterOf, IsKeyFor, StandsAsBefore, StandsSilent, steps_of, wait_index_of};
ghost use Rattle.wake_book.specs.Groups.{announcement_of as announced};
ghost use Rattle.tag_queue.specs.Hands.{IsHandOf, IsStillOf, SameTags, in_pool, pool_of, standing_of, waiter_of, group_steps, announcement_of};
ghost use Rattle.tag_pool.specs.Hands.{HasRoom};
ghost use Rattle.tag_pool.specs.declared.kind.Kind.TheVariants.{Ordinary};
ghost use Rattle.tag_queue.specs.Blocking.{GetsPlain, Rests, PassesOn, IsStay, WaitsFor, BlockingGets};
ghost use Rattle.refusals.specs.Refusals.{RefusesBy};
ghost use Rattle.tag_queue.specs.Refusals.{blocking_checks};

use crate::fault::WaitFault;
use crate::hand::QueueHand;
use crate::queue::Queue;
use std::sync::Wait;
use tag_pool::{Hand, Kind};
use wake_book::{Groups, Key, Left, Waiter};

impl<R: Copy> Queue<R> {
    /// Takes a free ordinary tag like `get`, and waits as long as it finds none: it enters a wait group, searches once more, and
    /// sleeps there if it finds none again, until it is granted a wakeup or rung. Nothing promises that it returns.
    /// `NoSuchTag` means that there is no ordinary tag, `Waiting` that the hand is already in a wait group, `Spent` that its
    /// life in the ordinary set is used up.
    pub fn get_blocking<W: Wait>(&self, rt: &W, hand: &mut QueueHand<R>) -> Result<u32, WaitFault>
        requires hand { IsHandOf self.now hand.old }
        ensures hand { IsStillOf self.now hand.old hand.new }
        ensures refusals { RefusesBy (blocking_checks self.now hand.old) (hand.new ≡ hand.old) result }
        ensures gets { IfOk result (λ tag. BlockingGets (pool_of self.now) tag hand.old hand.new) }
        ensures waits { IfOk result (λ tag. WaitsFor (pool_of self.now) tag hand.old hand.new) }
    {
        if self.pool.layout(Kind::Ordinary).depth() == 0 {
            return Err(WaitFault::NoSuchTag);
        }
        if Groups::standing(&hand.waiter).is_some() {
            return Err(WaitFault::Waiting);
        }
        for _ in rt.forever() {
            // Only the first get can be refused: each later one follows a get that won nothing.
            let Ok(answer) = self.get(hand) else {
                return Err(WaitFault::Spent);
            };
            if let Some(tag) = answer {
                return Ok(tag);
            }
            if let Some(tag) = self.stay(rt, hand) {
                return Ok(tag);
            }
        }
        unreachable!()
    }

    /// Stays in a wait group for one search, and sleeps there if it finds no tag.
    fn stay<W: Wait>(&self, rt: &W, hand: &mut QueueHand<R>) -> Option<u32>
        requires hand { IsHandOf self.now hand.old }
        requires out { standing_of hand.old ≡ None }
        requires room { HasRoom (in_pool hand.old) Ordinary 1 }
        ensures hand { IsStillOf self.now hand.old hand.new }
        ensures stay { IsStay (pool_of self.now) (wait_index_of (waiter_of hand.old)) result hand.old hand.new }
    {
        self.groups.enter(&mut hand.waiter);
        // Whoever frees a tag after this search has passed it rings, and a ring after this line ends the sleep.
        let key = self.groups.announce(&hand.waiter, &hand.inner);
        // A tag given back before the hand entered wakes nobody, so it must be searched for once more.
        let answer = self.try_get(hand);
        self.sleep_if_none(rt, hand, key, answer);
        let left = self.groups.leave(rt, &mut hand.waiter);
        self.pass_on(&mut hand.waiter, answer, left);
        answer
    }

    /// Sleeps in the hand's group, as the key announced, if the search there found no tag.
    fn sleep_if_none<W: Wait>(
        &self,
        rt: &W,
        hand: &mut QueueHand<R>,
        key: Key<'_, Hand<R>>,
        answer: Option<u32>,
    )
        requires hand { IsHandOf self.now hand.old }
        requires key { IsKeyFor self.now.groups (waiter_of hand.old) key }
        ensures hand { IsStillOf self.now hand.old hand.new }
        ensures rests { (group : ℕ) → standing_of hand.old ≡ Some group
            → Rests group answer (group_steps hand.old) (group_steps hand.new) }
        ensures announced { answer ≡ None → announcement_of hand.new ≡ announced key.entry }
        ensures same { SameTags hand.old hand.new × StandsSilent (waiter_of hand.old) (waiter_of hand.new) }
    {
        if answer.is_none() {
            hand.announcement = self.groups.sleep(rt, &mut hand.waiter, key);
        }
    }

    /// Rings one sleeper of each group if the waiter has a tag and used a grant: another could have used that grant, and
    /// would have looked for a tag that this one does not need.
    fn pass_on(&self, waiter: &mut Waiter, answer: Option<u32>, left: Left)
        requires groups { IsWaiterOf self.now.groups waiter.old }
        ensures groups { IsWaiterOf self.now.groups waiter.new × StandsAsBefore waiter.old waiter.new }
        ensures steps { steps_of waiter.new ≡ steps_of waiter.old }
        ensures passes { PassesOn answer left waiter.old waiter.new }
    {
        if answer.is_some() && left == Left::Woken {
            self.groups.nudge(waiter, 1);
        }
    }

    /// Makes a get for a hand that may win one more tag.
    fn try_get(&self, hand: &mut QueueHand<R>) -> Option<u32>
        requires hand { IsHandOf self.now hand.old }
        requires room { HasRoom (in_pool hand.old) Ordinary 1 }
        ensures hand { IsStillOf self.now hand.old hand.new }
        ensures gets { GetsPlain (pool_of self.now) result hand.old hand.new }
    {
        let Ok(answer) = self.get(hand) else {
            unreachable!()
        };
        answer
    }
}
