//! Gathers all hands and closes the pool.
ghost use Rattle.std.specs.Prelude.{◌≡◌, ◌↔◌, All, IfOk, IfErr, IsOk};
ghost use Rattle.step_ledger.specs.Gather.{HasAll, IsCauseOf};
ghost use Rattle.tag_pool.specs.Hands.{IsHandOf, hands_of};
ghost use Rattle.tag_pool.specs.Gathering.{numbers_of, totals_of_both, IsSmall, IsGathered};

use crate::gather::together::Together;
use crate::hand::Hand;
use crate::pool::Pool;
use step_ledger::{GatherCause, all_there, gather_each};
use tag_model::Totals;

pub(crate) mod together;

/// The reason why `gather` failed, with the pool and the hands that were passed in.
#[derive(Drop)]
pub struct PoolGatherFault<R> {
    pub cause: GatherCause,
    pub pool: Pool<R>,
    /// In the order in which they were passed in.
    pub hands: Vec<Hand<R>>,
}

impl<R: Copy> Pool<R> {
    /// Closes the pool and returns its totals, if all hands are passed in, in any order, even those that wait or hold
    /// tags: tags won and given back since the pool was opened, over all its resizes, and tags now held and posted, all
    /// over both sets. Otherwise it names the least missing number and hands everything back.
    pub fn gather(pool: Pool<R>, hands: Vec<Hand<R>>) -> Result<Totals, PoolGatherFault<R>>
        requires { All (IsHandOf pool) hands.items }
        ensures ok { IfOk result (λ totals. IsGathered pool hands.items totals) }
        ensures succeeds { IsOk result ↔ HasAll (numbers_of hands.items) (hands_of pool) }
        ensures missing { IfErr result (λ fault. IsCauseOf (numbers_of hands.items) (hands_of pool) fault.cause) }
        ensures err { IfErr result (λ fault. (fault.pool ≡ pool) × (fault.hands ≡ hands)) }
    {
        if let Err(cause) = all_there(&hands, pool.ordinary.callers()) {
            return Err(PoolGatherFault { cause, pool, hands });
        }
        Ok(pool.close(hands))
    }

    /// Closes the pool with all its hands.
    fn close(self, hands: Vec<Hand<R>>) -> Totals
        requires own { All (IsHandOf self) hands.items }
        requires all { HasAll (numbers_of hands.items) (hands_of self) }
        ensures { IsGathered self hands.items result }
    {
        let Together { reserved, ordinary } = gather_each(&self, hands);
        let Pool {
            reserved: first,
            ordinary: rest,
            ..
        } = self;
        add_up(rest.finish(ordinary).totals, first.finish(reserved).totals)
    }

    /// Drops the pool with the values in its slots, without totals.
    pub fn discard(self) {
        let Pool {
            reserved,
            ordinary,
            ..
        } = self;
        drop(reserved);
        drop(ordinary);
    }
}

/// Returns the sums over both sets.
fn add_up(one: Totals, other: Totals) -> Totals
    requires { IsSmall one × IsSmall other }
    ensures { result ≡ totals_of_both one other }
{
    Totals {
        got: one.got + other.got,
        back: one.back + other.back,
        held: one.held + other.held,
        posted: one.posted + other.posted,
    }
}
