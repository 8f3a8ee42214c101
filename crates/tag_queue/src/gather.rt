//! Gathers all hands and closes the queue.
ghost use Rattle.std.specs.Prelude.{◌≡◌, ◌≢◌, ◌↔◌, [], All, IfOk, IfErr, IsOk};
ghost use Rattle.step_ledger.specs.Gather.{HasAll, IsCauseOf};
ghost use Rattle.wake_book.specs.Book.{AreGathered as AreGatheredTellers, IsTellerOf};
ghost use Rattle.wake_book.specs.Groups.{AreGathered as AreGatheredWaiters, IsWaiterOf};
ghost use Rattle.tag_queue.specs.Gathering.{IsGathered, shell_tellers, shell_waiters};
ghost use Rattle.tag_queue.specs.Hands.{IsHandOf, hands_of, numbers_of};

use crate::hand::QueueHand;
use crate::queue::Queue;
use crate::room::Shell;
use step_ledger::{GatherCause, all_there};
use tag_pool::{Pool, Totals};
use wake_book::{Book, BookTotals, GroupTotals, Groups, TellerGathering, WaiterGathering};

mod hand_count;

/// The totals of a queue, known once all its hands are gathered.
#[derive(Clone, Copy, Debug, PartialEq, Eq)]
pub struct QueueTotals {
    /// Tags won and given back since the queue was opened, over all its resizes, and tags now held and posted, all over
    /// both sets.
    pub tags: Totals,
    /// Completions counted and charged.
    pub book: BookTotals,
    /// Wakeups granted and used, and hands that still wait.
    pub groups: GroupTotals,
}

/// The reason why `gather` failed, with the queue and the hands that were passed in.
#[derive(Drop)]
pub struct QueueGatherFault<R> {
    pub cause: GatherCause,
    pub queue: Queue<R>,
    /// In the order in which they were passed in.
    pub hands: Vec<QueueHand<R>>,
}

impl<R: Copy> Queue<R> {
    /// Closes the queue and returns its totals, if all its hands are passed in, in any order, even those that are in a
    /// wait group or hold tags. Otherwise it names the least missing number and hands everything back.
    pub fn gather(
        queue: Queue<R>,
        hands: Vec<QueueHand<R>>,
    ) -> Result<QueueTotals, QueueGatherFault<R>>
        requires { All (IsHandOf queue) hands.items }
        ensures ok { IfOk result (λ totals. IsGathered queue hands.items totals) }
        ensures succeeds { IsOk result ↔ HasAll (numbers_of hands.items) (hands_of queue) }
        ensures missing { IfErr result (λ fault. IsCauseOf (numbers_of hands.items) (hands_of queue) fault.cause) }
        ensures err { IfErr result (λ fault. (fault.queue ≡ queue) × (fault.hands ≡ hands)) }
    {
        if let Err(cause) = all_there(&hands, queue.hand_count()) {
            return Err(QueueGatherFault {
                cause,
                queue,
                hands,
            });
        }
        Ok(queue.close(hands))
    }

    /// Closes the queue with all its hands.
    fn close(self, hands: Vec<QueueHand<R>>) -> QueueTotals
        requires own { All (IsHandOf self) hands.items }
        requires all { HasAll (numbers_of hands.items) (hands_of self) }
        ensures { IsGathered self hands.items result }
    {
        let mut hands = self.assert_hand_count(hands);
        let Queue {
            pool,
            book,
            groups,
            room,
            ..
        } = self;
        let (inners, shells) = room.part(&mut hands);
        let Ok(tags) = Pool::gather(pool, inners) else {
            unreachable!()
        };
        let (tellers, waiters) = gather_shells(&book, &groups, shells);
        QueueTotals {
            tags,
            book: book.finish(tellers),
            groups: groups.finish(waiters),
        }
    }
}

/// Gathers the tellers and the waiters of these shells, from the last to the first.
fn gather_shells<R>(
    book: &Book,
    groups: &Groups,
    mut shells: Vec<Shell<R>>,
) -> (TellerGathering, WaiterGathering)
    requires some { shells.items ≢ [] }
    requires tellers { All (IsTellerOf book.now) (shell_tellers shells.items) }
    requires waiters { All (IsWaiterOf groups.now) (shell_waiters shells.items) }
    ensures tellers { AreGatheredTellers book.now (shell_tellers shells.items) result.0 }
    ensures waiters { AreGatheredWaiters groups.now (shell_waiters shells.items) result.1 }
{
    let Some(Shell { teller, waiter, .. }) = shells.pop() else {
        unreachable!()
    };
    let mut tellers = book.start_gathering(teller);
    let mut waiters = groups.start_gathering(waiter);
    while let Some(Shell { teller, waiter, .. }) = shells.pop() {
        tellers.add(book, teller);
        waiters.add(groups, waiter);
    }
    shells.destroy_empty();
    (tellers, waiters)
}
