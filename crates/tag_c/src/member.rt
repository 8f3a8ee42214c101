//! A hand that a thread of the C program has.
ghost use Rattle.std.specs.Prelude.{◌≡◌, IfErr};
ghost use Rattle.std.specs.Arc.{arc_value};
ghost use Rattle.tag_pool.specs.Hands.{IsHandOf};

use crate::pool_state::PoolState;
use std::alloc::Global;
use std::sync::Arc;
use tag_pool::Hand;

/// A hand outside its cell, and the pool that it belongs to.
#[derive(Drop)]
pub struct Member {
    pub shared: Arc<PoolState, Global>,
    pub hand: Hand<u64>,
    ghost own: { IsHandOf (arc_value shared).tags hand },
}

impl Member {
    /// Puts the hand into a free cell of its pool, or returns it if none is free. A pool has a cell for each of its
    /// hands, so that is not expected, but it is not ruled out by a proof.
    pub(crate) fn leave(self) -> Result<(), Member>
        ensures { IfErr result (λ back. back ≡ self) }
    {
        let Member { shared, hand } = self;
        match shared.rest(hand) {
            Ok(()) => Ok(()),
            Err(hand) => Err(Member { shared, hand }),
        }
    }
}
