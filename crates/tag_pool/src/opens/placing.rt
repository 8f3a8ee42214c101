//! Where a hand's gets start.
ghost use Rattle.std.specs.Prelude.{◌≡◌, All, IfOk};
ghost use Rattle.std.specs.List.{AllZip};
ghost use Rattle.tag_pool.specs.Hands.{IsHandOf, IsStillOf, fill_of};
ghost use Rattle.tag_pool.specs.Opening.{IsOpenPlaced};
ghost use Rattle.tag_pool.specs.Placing.{IsPlaced};
ghost use Rattle.refusals.specs.Refusals.{RefusesOrRunsOut};
ghost use Rattle.tag_pool.specs.Refusals.{open_checks};

use crate::fault::OpenFault;
use crate::hand::Hand;
use crate::options::Options;
use crate::pool::Pool;
use std::alloc::Global;

impl<R: Copy> Pool<R> {
    /// Opens a pool as `open` does, refuses what `open` refuses, and places the hints of each hand (see `place`).
    pub fn open_placed(
        alloc: Global,
        options: Options,
        fill: R,
    ) -> Result<(Pool<R>, Vec<Hand<R>>), OpenFault>
        ensures ok { IfOk result (λ opened. IsOpenPlaced options opened.0 opened.1.items) }
        ensures fill { IfOk result (λ opened. fill_of opened.0 ≡ fill) }
        ensures refusals { RefusesOrRunsOut (open_checks options) OpenFault.Memory result }
    {
        let (pool, mut hands) = Pool::open(alloc, options, fill)?;
        place_all(&pool, hands.as_mut_slice());
        Ok((pool, hands))
    }

    /// Moves the hand's hint in each set to the first tag of its own part of the set: its number times the tags of the set,
    /// divided by the number of hands, rounded down. All hints start at the set's first tag, where threads would contend;
    /// placed hands meet where their parts share a word, since a get without round robin starts with the first tag of the
    /// hint's word, and once their parts are full: a get that finds no tag at all moves the hint to the set's first tag.
    /// This makes no step.
    pub fn place(&self, hand: &mut Hand<R>)
        requires { IsHandOf self.now hand.old }
        ensures hand { IsStillOf self.now hand.old hand.new }
        ensures placed { IsPlaced self.now hand.old hand.new }
    {
        hand.reserved.place(&self.reserved);
        hand.ordinary.place(&self.ordinary);
    }
}

/// Places the hints of each hand.
fn place_all<R: Copy>(pool: &Pool<R>, hands: &mut [Hand<R>])
    requires { All (IsHandOf pool.now) hands.old }
    ensures { AllZip (IsPlaced pool.now) hands.old hands.new }
{
    for hand in hands.iter_mut() {
        pool.place(hand);
    }
}
