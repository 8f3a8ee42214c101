//! The ordinary tags of a queue, each thread with a hand of its own.
ghost use Rattle.std.specs.Prelude.{All};
ghost use Rattle.tag_pool.specs.Hands.{Holds};
ghost use Rattle.tag_queue.specs.Hands.{IsHandOf, in_pool};

use crate::allocator::TagAllocator;
use crate::measure::Failed;
use std::alloc::Global;
use tag_core::Spent;
use tag_queue::{MAX_CAP, Options, Queue, QueueHand, Ring, Totals};
use tag_search::Hint;

impl TagAllocator for Queue<u64> {
    type Hand = QueueHand<u64>;

    ghost is_own = { IsHandOf };

    ghost holds = { λ hand. Holds (in_pool hand) };

    fn open(
        alloc: Global,
        depth: u32,
        threads: u32,
    ) -> Result<(Queue<u64>, Vec<QueueHand<u64>>), Failed> {
        let options = Options::new(depth, threads);
        Ok(Queue::open(alloc, options, MAX_CAP, 0)?)
    }

    fn gather(self, hands: Vec<QueueHand<u64>>) -> Result<Totals, Failed>
        requires { All (IsHandOf self) hands.items }
    {
        match Queue::gather(self, hands) {
            Ok(totals) => Ok(totals.tags),
            Err(_) => Err(Failed::Missing),
        }
    }

    fn place(&self, hand: &mut QueueHand<u64>) {
        Queue::place(self, hand);
    }

    #[inline]
    fn get(&self, hand: &mut QueueHand<u64>, _hint: &mut Hint) -> Result<Option<u32>, Spent> {
        let Ok(answer) = Queue::get(self, hand) else {
            return Err(Spent);
        };
        Ok(answer)
    }

    #[inline]
    fn touch(&self, hand: &mut QueueHand<u64>, tag: u32, value: u32) {
        let Ok(_) = self.write(hand, tag, u64::from(value)) else {
            unreachable!()
        };
    }

    #[inline]
    fn clear(&self, hand: &mut QueueHand<u64>, _hint: &mut Hint, tag: u32) {
        let Ok(_) = Queue::clear::<Ring>(self, hand, tag) else {
            unreachable!()
        };
    }

    #[inline]
    fn test_and_clear(&self, hand: &mut QueueHand<u64>, _hint: &mut Hint, tag: u32) {
        let _ = Queue::clear::<Ring>(self, hand, tag);
    }

    #[inline]
    fn post(&self, hand: &mut QueueHand<u64>, tag: u32) {
        let Ok(()) = Queue::post(self, hand, tag) else {
            unreachable!()
        };
    }

    #[inline]
    fn take(&self, hand: &mut QueueHand<u64>, tag: u32) -> bool {
        let Ok(()) = Queue::take(self, hand, tag) else {
            return false;
        };
        true
    }
}
