//! Gathers all hands and closes the queue.
ghost use Rattle.std.specs.Prelude.{◌≡◌, ◌≤◌, [], All, IfErr, IfOk, OnOk, length, map, vec_capacity};
ghost use Rattle.step_ledger.specs.Gather.{HasAll};
ghost use Rattle.posted_queue.specs.Gathering.{IsCauseOf, IsGathered};
ghost use Rattle.posted_queue.specs.Hands.{hands_of, in_tokens, IsOwnOf, numbers_of};

use crate::queue::{PostedHand, PostedQueue};
use std::alloc::Global;
use step_ledger::least_missing;
use tag_pool::{Hand, Pool, Totals};

/// Why a queue was not closed.
#[derive(Clone, Copy, Debug, PartialEq, Eq)]
pub enum PostedGatherCause {
    /// A hand was not passed in. This is the least number that is missing.
    Missing(u32),
    /// Out of memory.
    Memory,
}

/// The reason why `gather` failed, with the queue and the hands that were passed in.
#[derive(Drop)]
pub struct PostedGatherFault {
    pub cause: PostedGatherCause,
    pub queue: PostedQueue,
    /// In the order in which they were passed in.
    pub hands: Vec<PostedHand>,
}

impl PostedQueue {
    /// Closes the queue and returns the totals of its tokens, if all its hands are passed in, in any order, even those that
    /// wait: no token is held then, so each is posted, or is free and stands for a tag that is still queued, which stays posted
    /// in its pool. Otherwise it names the least number that is missing, or that memory ran out, and hands everything back.
    pub fn gather(
        alloc: Global,
        queue: PostedQueue,
        hands: Vec<PostedHand>,
    ) -> Result<Totals, PostedGatherFault>
        requires { All (IsOwnOf queue) hands.items }
        ensures ok { IfOk result (λ totals. IsGathered queue hands.items totals) }
        ensures succeeds { OnOk result (HasAll (numbers_of hands.items) (hands_of queue)) }
        ensures cause { IfErr result (λ fault. IsCauseOf (numbers_of hands.items) (hands_of queue) fault.cause) }
        ensures err { IfErr result (λ fault. (fault.queue ≡ queue) × (fault.hands ≡ hands)) }
    {
        if let Some(number) = least_missing(hands.as_slice(), queue.hand_count()) {
            return Err(PostedGatherFault {
                cause: PostedGatherCause::Missing(number),
                queue,
                hands,
            });
        }
        let Ok(room) = Vec::with_capacity(alloc, hands.len()) else {
            return Err(PostedGatherFault {
                cause: PostedGatherCause::Memory,
                queue,
                hands,
            });
        };
        Ok(queue.close(hands, room))
    }

    /// Closes the queue with all its hands, in a vector with room for them.
    fn close(self, hands: Vec<PostedHand>, room: Vec<Hand<()>>) -> Totals
        requires own { All (IsOwnOf self) hands.items }
        requires all { HasAll (numbers_of hands.items) (hands_of self) }
        requires room { (room.items ≡ []) × (length hands.items ≤ vec_capacity room) }
        ensures { IsGathered self hands.items result }
    {
        let Ok(totals) = Pool::gather(self.into_tokens(), part(hands, room)) else {
            unreachable!()
        };
        totals
    }
}

/// Returns the hands of the tokens, in the same order, in a vector with room for them.
fn part(mut hands: Vec<PostedHand>, mut room: Vec<Hand<()>>) -> Vec<Hand<()>>
    requires { (room.items ≡ []) × (length hands.items ≤ vec_capacity room) }
    ensures { result.items ≡ map in_tokens hands.items }
{
    while let Some(hand) = hands.pop() {
        let PostedHand {
            tokens,
            pass: _,
            seat: _,
        } = hand;
        room.push_reserved(tokens);
    }
    room.reverse();
    room
}
