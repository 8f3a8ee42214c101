//! Gathers hands one after another.
ghost use Rattle.tag_pool.specs.Hands.{IsHandOf};
ghost use Rattle.tag_pool.specs.Gathering.{IsTogetherOf, AreTogether};

use crate::hand::Hand;
use crate::pool::Pool;
use step_ledger::Gather;
use tag_core::Gathering;

/// The hands gathered so far, as the callers of each set.
#[derive(Drop)]
pub struct Together<R> {
    pub(crate) reserved: Gathering<R>,
    pub(crate) ordinary: Gathering<R>,
}

impl<R> Gather for Pool<R> {
    type Member = Hand<R>;

    type Gathering = Together<R>;

    ghost owns = { λ pool hand. IsHandOf pool hand };

    ghost gathers = { λ pool hands together. IsTogetherOf pool together × AreTogether hands together };

    fn take_first(&self, hand: Hand<R>) -> Together<R> {
        let Hand {
            reserved_count: _,
            reserved,
            ordinary,
        } = hand;
        Together {
            reserved: self.reserved.start_gathering(reserved.into_caller()),
            ordinary: self.ordinary.start_gathering(ordinary.into_caller()),
        }
    }

    fn take_next(&self, together: &mut Together<R>, hand: Hand<R>) {
        let Hand {
            reserved_count: _,
            reserved,
            ordinary,
        } = hand;
        together
            .reserved
            .add(&self.reserved, reserved.into_caller());
        together
            .ordinary
            .add(&self.ordinary, ordinary.into_caller());
    }
}
