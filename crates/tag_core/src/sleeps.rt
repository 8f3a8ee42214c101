//! How a caller sleeps, and how another rouses it. A sleeper waits on its own berth, so neither is in a list of steps.
ghost use Rattle.std.specs.Prelude.{◌≡◌, ◌≢◌, ◌<◌, bit_or};
ghost use Rattle.std.specs.Int.{bit_at};
ghost use Rattle.tag_model.specs.declared.world.TheConstants.{MAX_CALLERS};
ghost use Rattle.tag_core.specs.Berths.{TurnFits};
ghost use Rattle.tag_core.specs.Callers.{IsCallerOf};
ghost use Rattle.tag_core.specs.Sleeping.{FoundItselfListed};
ghost use Rattle.tag_core.specs.Waits.{bit_of};

use crate::bell::Unroused;
use crate::berth::Berth;
use crate::caller::Caller;
use crate::map::Map;
use crate::spots::berth_spot;
use std::sync::Wait;

/// The callers that were roused, a bit for the number of each. Only `rouse` adds any.
#[derive(Drop)]
pub struct Roused {
    pub(crate) callers: u64,
}

impl Roused {
    ghost use Rattle.std.specs.Prelude.{◌≡◌};

    /// Nobody.
    pub fn none() -> Roused
        ensures { result.callers ≡ 0 }
    {
        Roused { callers: 0 }
    }

    /// Returns the callers that were roused.
    pub fn callers(&self) -> u64
        ensures { result ≡ self.now.callers }
    {
        self.callers
    }
}

impl<R> Map<R> {
    /// Sleeps until the caller is roused, unless it was told since it found itself listed so. Until it is told nobody
    /// changes its berth, on the low half of which it sleeps: so it misses no wakeup. It may also return for no reason.
    pub fn sleep<W: Wait>(&self, rt: &W, caller: &Caller<R>, listed: Berth)
        requires caller { IsCallerOf self.now caller.now }
        requires fits { TurnFits listed }
        requires looked { FoundItselfListed listed caller.now }
    {
        let expected = (listed.to_word() & u32::MAX as u64) as u32;
        let table = &self.table.shared;
        table.park(rt, berth_spot(caller.number), expected);
    }

    /// Rouses the caller of this number, if it is among those told: if it sleeps, it wakes. A tell changed the low half of
    /// its berth, so if it is about to sleep it does not.
    pub fn rouse(&self, number: u32, told: &Unroused, roused: &mut Roused)
        requires within { number < MAX_CALLERS }
        ensures told { bit_at told.now number ≡ 1 → roused.new.callers ≡ bit_or roused.old.callers (bit_of number) }
        ensures others { bit_at told.now number ≢ 1 → roused.new.callers ≡ roused.old.callers }
    {
        if told.callers() >> number & 1 == 0 {
            return;
        }
        self.table.shared.wake_one(berth_spot(number));
        roused.callers |= 1 << number;
    }
}
