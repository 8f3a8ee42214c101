//! Resizes a pool to another number of tags.
ghost use Rattle.std.specs.Prelude.{◌≡◌, ◌↔◌, ◌≤◌, ℕ, All, IfOk, IfErr, IsOk, MatchOption, length, count_by};
ghost use Rattle.step_ledger.specs.Gather.{HasAll, IsLeastMissing};
ghost use Rattle.tag_pool.specs.Gathering.{numbers_of};
ghost use Rattle.tag_pool.specs.Hands.{IsHandOf, hands_of, reserved_of};
ghost use Rattle.tag_pool.specs.Resizing.{IsRefusedAs, IsRefusedFor, IsResized, MayResize, HasMap, IsOutOfRange, layout_at};
ghost use Rattle.tag_pool.specs.Resizing.{AreUnused, AreUsed, AreWaiting, HaveWaiters, IsBusyFor, BalanceInBoth, has_bit};
ghost use Rattle.tag_pool.specs.Using.{AreUnchanged};

use crate::hand::Hand;
use crate::pool::Pool;
use std::alloc::Global;
use step_ledger::{GatherCause, Numbered, all_there};
use tag_layout::{Layout, MAX_DEPTH};
use thiserror::Error;

mod checks;
mod next_map;
mod reopens;
mod shells;

/// Why a pool can't be resized. The causes are checked in this order.
#[derive(Clone, Copy, Debug, PartialEq, Eq, Error)]
pub enum ResizeCause {
    /// A hand was not passed in: the least such number.
    #[error("caller {0} is missing")]
    Missing(u32),
    /// There would be more than 10,240 tags, or fewer than reserved ones.
    #[error("the number of tags is out of range")]
    DepthTooLarge,
    /// Tags are in use, of either set: how many are held, and how many posted.
    #[error("{0} tags are held and {1} are posted")]
    InUse(u64, u64),
    /// Hands wait, for a tag of either set: how many.
    #[error("{0} callers wait")]
    Waiting(u32),
    /// Out of memory.
    #[error("out of memory")]
    Memory,
}

/// The reason why `resize` failed, with the pool and the hands that were passed in.
#[derive(Drop)]
pub struct PoolResizeFault<R> {
    pub cause: ResizeCause,
    pub pool: Pool<R>,
    /// In the order in which they were passed in.
    pub hands: Vec<Hand<R>>,
}

impl<R: Copy> Pool<R> {
    /// Resizes the ordinary set so that there are `depth` tags in both sets, and moves all hands to it. The ordinary tags
    /// are new and free, and their slots contain the initial value; the reserved set is unchanged. All hands must be passed
    /// in, in any order; no tag of either set may be held or posted, and no hand may wait, for a tag of either set. A refusal
    /// hands everything back.
    pub fn resize(
        alloc: Global,
        pool: Pool<R>,
        mut hands: Vec<Hand<R>>,
        depth: u32,
    ) -> Result<(Pool<R>, Vec<Hand<R>>), PoolResizeFault<R>>
        requires { All (IsHandOf pool) hands.items }
        ensures ok { IfOk result (λ p. IsResized pool hands.items depth p.0 p.1.items) }
        ensures may { IsOk result → MayResize pool hands.items depth }

        // The causes are checked in this order, and memory comes last.
        ensures missing { (n : ℕ) → IsRefusedAs result (ResizeCause.Missing n)
            ↔ IsLeastMissing (numbers_of hands.items) (hands_of pool) n }
        ensures too_deep { IsRefusedAs result ResizeCause.DepthTooLarge
            ↔ (HasAll (numbers_of hands.items) (hands_of pool) × IsOutOfRange depth (reserved_of pool)) }
        ensures in_use { (held posted : ℕ) → IsRefusedAs result (ResizeCause.InUse held posted)
            ↔ (HasMap pool hands.items depth × AreUsed hands.items held posted) }
        ensures waiting { (n : ℕ) → IsRefusedAs result (ResizeCause.Waiting n)
            ↔ (HasMap pool hands.items depth × AreWaiting hands.items n) }
        ensures memory { IsRefusedAs result ResizeCause.Memory → MayResize pool hands.items depth }

        ensures balance { HasMap pool hands.items depth → BalanceInBoth hands.items }
        ensures err { IfErr result (λ fault. (fault.pool ≡ pool) × AreUnchanged hands.items fault.hands.items) }
        ensures own { IfErr result (λ fault. All (IsHandOf fault.pool) fault.hands.items) }
    {
        match pool.next_layout(&mut hands, depth) {
            Ok(layout) => pool.reopen(alloc, layout, depth, hands),
            Err(cause) => Err(PoolResizeFault { cause, pool, hands }),
        }
    }

    /// Returns the layout of the next map, if nothing but memory can prevent the resize.
    fn next_layout(&self, hands: &mut Vec<Hand<R>>, total: u32) -> Result<Layout, ResizeCause>
        requires own { All (IsHandOf self.now) hands.old.items }
        ensures own { All (IsHandOf self.now) hands.new.items }
        ensures unchanged { AreUnchanged hands.old.items hands.new.items }
        ensures may { IsOk result → MayResize self.now hands.old.items total }
        ensures layout { IfOk result (λ layout. layout ≡ layout_at self.now total) }
        ensures cause { IfErr result (IsRefusedFor self.now hands.old.items total) }
        ensures balance { HasMap self.now hands.old.items total → BalanceInBoth hands.old.items }
    {
        if let Err(GatherCause::Missing(number)) = all_there(hands, self.ordinary.callers()) {
            return Err(ResizeCause::Missing(number));
        }
        let reserved = self.reserved_count;
        if total > MAX_DEPTH || total < reserved {
            return Err(ResizeCause::DepthTooLarge);
        }
        let shift = self.ordinary.layout().shift();
        let Ok(layout) = Layout::new(total - reserved, Some(shift)) else {
            unreachable!()
        };
        match self.busy_for(hands) {
            Some(cause) => Err(cause),
            None => Ok(layout),
        }
    }

    /// Returns what prevents the resize while all hands are present: tags in use, or hands that wait.
    fn busy_for(&self, hands: &mut Vec<Hand<R>>) -> Option<ResizeCause>
        requires own { All (IsHandOf self.now) hands.old.items }
        requires every { HasAll (numbers_of hands.old.items) (hands_of self.now) }
        ensures own { All (IsHandOf self.now) hands.new.items }
        ensures unchanged { AreUnchanged hands.old.items hands.new.items }
        ensures cause { MatchOption result (AreUnused hands.old.items × HaveWaiters hands.old.items 0)
            (IsBusyFor hands.old.items) }
        ensures balance { BalanceInBoth hands.old.items }
    {
        let usage = self.usage(hands);
        let held = usage.ordinary.totals.held + usage.reserved.totals.held;
        let posted = usage.ordinary.totals.posted + usage.reserved.totals.posted;
        if held != 0 || posted != 0 {
            return Some(ResizeCause::InUse(held, posted));
        }
        let waiting = usage.reserved.waiting | usage.ordinary.waiting;
        let count = self.count_in(hands.as_slice(), waiting);
        if count != 0 {
            return Some(ResizeCause::Waiting(count));
        }
        None
    }
}

impl<R> Pool<R> {
    /// Returns how many of these hands have their bit in a mask.
    fn count_in(&self, hands: &[Hand<R>], mask: u64) -> u32
        requires own { All (IsHandOf self.now) hands.now }
        requires few { length hands.now ≤ 64 }
        ensures { result ≡ count_by (has_bit mask) (numbers_of hands.now) }
    {
        let mut count = 0u32;
        for hand in hands {
            if mask >> hand.number() & 1 == 1 {
                count += 1;
            }
        }
        count
    }
}
