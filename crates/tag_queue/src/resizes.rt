//! Resizes the ordinary set of a queue to another number of tags.
ghost use Rattle.std.specs.Prelude.{◌≡◌, ◌↔◌, ◌≤◌, ℕ, All, IfErr, IfOk, IsOk, length};
ghost use Rattle.step_ledger.specs.Gather.{HasAll, IsLeastMissing};
ghost use Rattle.tag_pool.specs.Gathering.{numbers_of as pool_numbers};
ghost use Rattle.tag_pool.specs.Hands.{IsHandOf as IsPoolHandOf, hands_of as pool_hands};
ghost use Rattle.tag_pool.specs.Resizing as resizing;
ghost use Rattle.tag_pool.specs.Using as using;
ghost use Rattle.tag_queue.specs.Hands.{AreUnchanged, IsHandOf, hands_of, numbers_of};
ghost use Rattle.tag_queue.specs.Resizing.{AreUsed, AreWaiting, BalanceInBoth, HasMap, IsOutOfRange, IsRefusedAs};
ghost use Rattle.tag_queue.specs.Resizing.{IsRefusedFor, IsResized, IsSame, MayResize, StillRefuses, standing_count};
ghost use Rattle.tag_queue.specs.Bell.{WaitsNowhere};

use crate::hand::QueueHand;
use crate::queue::Queue;
use crate::room::Room;
use std::alloc::Global;
use step_ledger::least_missing;
use tag_pool::{Hand, Kind, Pool, PoolResizeFault, ResizeCause};
use wake_book::Groups;

/// The reason why `resize` failed, with the queue and the hands that were passed in.
#[derive(Drop)]
pub struct QueueResizeFault<R> {
    /// `Waiting` counts the hands that are in a wait group.
    pub cause: ResizeCause,
    pub queue: Queue<R>,
    /// In the order in which they were passed in.
    pub hands: Vec<QueueHand<R>>,
}

impl<R: Copy> Queue<R> {
    /// Resizes the ordinary set so that there are `depth` tags in both sets, and moves all hands to it, as
    /// `Pool::resize` does; the batch is that of the new ordinary set. All hands must be passed in, in any order; no tag
    /// of either set may be held or posted, and no hand may be in a wait group. A refusal hands everything back.
    pub fn resize(
        alloc: Global,
        queue: Queue<R>,
        hands: Vec<QueueHand<R>>,
        depth: u32,
    ) -> Result<(Queue<R>, Vec<QueueHand<R>>), QueueResizeFault<R>>
        requires { All (IsHandOf queue) hands.items }
        ensures ok { IfOk result (λ p. IsResized queue hands.items depth p.0 p.1.items) }
        ensures may { IsOk result → MayResize queue hands.items depth }

        // The causes are checked in this order, and memory comes last.
        ensures missing { (n : ℕ) → IsRefusedAs result (ResizeCause.Missing n)
            ↔ IsLeastMissing (numbers_of hands.items) (hands_of queue) n }
        ensures too_deep { IsRefusedAs result ResizeCause.DepthTooLarge
            ↔ (HasAll (numbers_of hands.items) (hands_of queue) × IsOutOfRange queue depth) }
        ensures in_use { (held posted : ℕ) → IsRefusedAs result (ResizeCause.InUse held posted)
            ↔ (HasMap queue hands.items depth × AreUsed hands.items held posted) }
        ensures waiting { (n : ℕ) → IsRefusedAs result (ResizeCause.Waiting n)
            ↔ (HasMap queue hands.items depth × AreWaiting hands.items n) }
        ensures memory { IsRefusedAs result ResizeCause.Memory → MayResize queue hands.items depth }

        ensures balance { HasMap queue hands.items depth → BalanceInBoth hands.items }
        ensures err { IfErr result (λ fault. IsSame queue fault.queue × AreUnchanged hands.items fault.hands.items) }
        ensures own { IfErr result (λ fault. All (IsHandOf fault.queue) fault.hands.items) }
    {
        let hands = queue.assert_hand_count(hands);
        if let Some(number) = least_missing(hands.as_slice(), queue.hand_count()) {
            return Err(QueueResizeFault {
                cause: ResizeCause::Missing(number),
                queue,
                hands,
            });
        }
        queue.go_on(alloc, hands, depth)
    }

    /// Resizes the queue while all its hands are present.
    fn go_on(
        self,
        alloc: Global,
        mut hands: Vec<QueueHand<R>>,
        depth: u32,
    ) -> Result<(Queue<R>, Vec<QueueHand<R>>), QueueResizeFault<R>>
        requires own { All (IsHandOf self) hands.items }
        requires every { HasAll (numbers_of hands.items) (hands_of self) }
        requires few { length hands.items ≤ hands_of self }
        ensures ok { IfOk result (λ p. IsResized self hands.items depth p.0 p.1.items) }
        ensures may { IsOk result → MayResize self hands.items depth }
        ensures cause { IfErr result (λ fault. IsRefusedFor self hands.items depth fault.cause) }
        ensures balance { HasMap self hands.items depth → BalanceInBoth hands.items }
        ensures err { IfErr result (λ fault. IsSame self fault.queue × AreUnchanged hands.items fault.hands.items) }
        ensures own { IfErr result (λ fault. All (IsHandOf fault.queue) fault.hands.items) }
    {
        let standing = count_standing(hands.as_slice()) as u32;
        let Queue {
            pool,
            mut book,
            groups,
            batch,
            min_shallow,
            room,
        } = self;
        let count = room.count;
        let (inners, shells) = room.part(&mut hands);
        match resize_pool(alloc, pool, inners, depth, standing) {
            Ok((pool, inners)) => {
                let batch = pool.layout(Kind::Ordinary).wake_batch(min_shallow);
                book.rebatch(batch);
                let queue = Queue {
                    pool,
                    book,
                    groups,
                    batch,
                    min_shallow,
                    room: Room::unite(inners, shells, &mut hands, count),
                };
                Ok((queue, hands))
            }
            Err(fault) => {
                let PoolResizeFault {
                    cause,
                    pool,
                    hands: inners,
                } = fault;
                let queue = Queue {
                    pool,
                    book,
                    groups,
                    batch,
                    min_shallow,
                    room: Room::unite(inners, shells, &mut hands, count),
                };
                Err(QueueResizeFault {
                    cause,
                    queue,
                    hands,
                })
            }
        }
    }
}

/// Resizes the pool, unless hands stand in wait groups: that many of them refuse it, after tags in use.
fn resize_pool<R: Copy>(
    alloc: Global,
    pool: Pool<R>,
    mut hands: Vec<Hand<R>>,
    depth: u32,
    standing: u32,
) -> Result<(Pool<R>, Vec<Hand<R>>), PoolResizeFault<R>>
    requires own { All (IsPoolHandOf pool) hands.items }
    requires every { HasAll (pool_numbers hands.items) (pool_hands pool) }
    requires up { All WaitsNowhere hands.items }
    ensures ok { IfOk result (λ p. resizing.IsResized pool hands.items depth p.0 p.1.items) }
    ensures may { IsOk result → resizing.MayResize pool hands.items depth × (standing ≡ 0) }
    ensures cause { IfErr result (λ fault. StillRefuses pool hands.items depth standing fault.cause) }
    ensures balance { resizing.HasMap pool hands.items depth → resizing.BalanceInBoth hands.items }
    ensures err { IfErr result (λ fault. (fault.pool ≡ pool) × using.AreUnchanged hands.items fault.hands.items) }
    ensures own { IfErr result (λ fault. All (IsPoolHandOf fault.pool) fault.hands.items) }
{
    if standing == 0 {
        return Pool::resize(alloc, pool, hands, depth);
    }
    let cause = match pool.check_resize(&mut hands, depth) {
        Err(ResizeCause::Missing(number)) => ResizeCause::Missing(number),
        Err(ResizeCause::DepthTooLarge) => ResizeCause::DepthTooLarge,
        Err(ResizeCause::InUse(held, posted)) => ResizeCause::InUse(held, posted),
        Err(ResizeCause::Waiting(_)) => ResizeCause::Waiting(standing),
        Err(ResizeCause::Memory) => ResizeCause::Waiting(standing),
        Ok(()) => ResizeCause::Waiting(standing),
    };
    Err(PoolResizeFault { cause, pool, hands })
}

/// Returns how many of these hands are in a wait group.
fn count_standing<R>(hands: &[QueueHand<R>]) -> usize
    ensures { result ≡ standing_count hands.now }
{
    hands
        .iter()
        .filter(|hand| Groups::standing(&hand.waiter).is_some())
        .count()
}
