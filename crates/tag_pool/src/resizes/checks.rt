//! Whether a resize would be refused, for whoever holds hands that wait elsewhere too.
ghost use Rattle.std.specs.Prelude.{All, IfErr, IsOk};
ghost use Rattle.tag_pool.specs.Hands.{IsHandOf};
ghost use Rattle.tag_pool.specs.Resizing.{BalanceInBoth, HasMap, IsRefusedFor, MayResize};
ghost use Rattle.tag_pool.specs.Using.{AreUnchanged};

use crate::hand::Hand;
use crate::pool::Pool;
use crate::resizes::ResizeCause;

impl<R: Copy> Pool<R> {
    /// Returns `Ok` if nothing but memory can prevent a resize to `depth` tags, and otherwise why `resize` would refuse it.
    /// The hands are unchanged.
    pub fn check_resize(&self, hands: &mut Vec<Hand<R>>, depth: u32) -> Result<(), ResizeCause>
        requires own { All (IsHandOf self.now) hands.old.items }
        ensures own { All (IsHandOf self.now) hands.new.items }
        ensures unchanged { AreUnchanged hands.old.items hands.new.items }
        ensures may { IsOk result → MayResize self.now hands.old.items depth }
        ensures cause { IfErr result (IsRefusedFor self.now hands.old.items depth) }
        ensures balance { HasMap self.now hands.old.items depth → BalanceInBoth hands.old.items }
    {
        match self.next_layout(hands, depth) {
            Ok(_) => Ok(()),
            Err(cause) => Err(cause),
        }
    }
}
