//! The ordinary tags of a pool, each thread with a hand of its own.
ghost use Rattle.std.specs.Prelude.{All};
ghost use Rattle.tag_pool.specs.Hands.{IsHandOf, Holds};

use crate::allocator::TagAllocator;
use crate::measure::Failed;
use std::alloc::Global;
use tag_core::Spent;
use tag_pool::{Hand, Options, Pool, Totals};
use tag_search::Hint;

impl TagAllocator for Pool<u64> {
    type Hand = Hand<u64>;

    ghost is_own = { IsHandOf };

    ghost holds = { Holds };

    fn open(
        alloc: Global,
        depth: u32,
        threads: u32,
    ) -> Result<(Pool<u64>, Vec<Hand<u64>>), Failed> {
        Ok(Pool::open(alloc, Options::new(depth, threads), 0)?)
    }

    fn gather(self, hands: Vec<Hand<u64>>) -> Result<Totals, Failed>
        requires { All (IsHandOf self) hands.items }
    {
        match Pool::gather(self, hands) {
            Ok(totals) => Ok(totals),
            Err(_) => Err(Failed::Missing),
        }
    }

    fn place(&self, hand: &mut Hand<u64>) {
        Pool::place(self, hand);
    }

    #[inline]
    fn get(&self, hand: &mut Hand<u64>, _hint: &mut Hint) -> Result<Option<u32>, Spent> {
        let Ok(got) = Pool::get(self, hand) else {
            return Err(Spent);
        };
        Ok(got.answer)
    }

    #[inline]
    fn touch(&self, hand: &mut Hand<u64>, tag: u32, value: u32) {
        let Ok(_) = self.write(hand, tag, u64::from(value)) else {
            unreachable!()
        };
    }

    #[inline]
    fn clear(&self, hand: &mut Hand<u64>, _hint: &mut Hint, tag: u32) {
        let Ok(_) = Pool::clear(self, hand, tag) else {
            unreachable!()
        };
    }

    #[inline]
    fn test_and_clear(&self, hand: &mut Hand<u64>, _hint: &mut Hint, tag: u32) {
        let _ = Pool::clear(self, hand, tag);
    }

    #[inline]
    fn post(&self, hand: &mut Hand<u64>, tag: u32) {
        let Ok(()) = Pool::post(self, hand, tag) else {
            unreachable!()
        };
    }

    #[inline]
    fn take(&self, hand: &mut Hand<u64>, tag: u32) -> bool {
        let Ok(()) = Pool::take(self, hand, tag) else {
            return false;
        };
        true
    }
}
