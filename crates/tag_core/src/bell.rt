//! Callers that wait: how a caller lists itself, is told, and gets up.
ghost use Rattle.std.specs.Prelude.{◌≡◌, ℕ, ◌<◌, bit_or};
ghost use Rattle.tag_model.specs.declared.world.TheConstants.{MAX_CALLERS};
ghost use Rattle.tag_core.specs.declared.berth.Berth.{Berth as BerthIs};
ghost use Rattle.tag_core.specs.declared.berth.TheConstants.{TURNS};
ghost use Rattle.tag_core.specs.Berths.{TurnFits};
ghost use Rattle.tag_core.specs.Callers.{IsCallerOf, IsAmongWaiters, HasGotUp, record_of, Adds};
ghost use Rattle.tag_core.specs.Holding.{HoldsSame};
ghost use Rattle.tag_core.specs.Waits.{AgreesWith, bit_of, HasTaken, newly_told};
ghost use Rattle.tag_core.specs.declared.step.Step.TheVariants.{Bell};
ghost use Rattle.tag_core.specs.declared.bell_step.BellStep.TheVariants.{Enlist, Enter, GetUp, Leave, LookAll, LookAt, TakeTurn, Tell};

use crate::berth::{Berth, Waiter};
use crate::caller::Caller;
use crate::map::Map;
use crate::plays::{
    Enlisting, Entering, GettingUp, Leaving, LookingAll, LookingAt, TakingTurn, Telling,
};
use crate::spots::{berth_spot, clock_spot, waiters_spot};
use std::marker::Model;

/// Callers that were told, a bit for the number of each: 1 is told. Contracts see the number. Only `tell` makes one that is
/// not 0, and only its callers can be roused by it.
#[derive(Drop)]
pub struct Unroused {
    callers: u64,
}

impl Model for Unroused {
    ghost Value = { ℕ };

    ghost view = { λ told. told.callers };
}

impl Unroused {
    /// Nobody.
    pub fn none() -> Unroused
        ensures { result ≡ 0 }
    {
        Unroused { callers: 0 }
    }

    /// Returns the callers that were told.
    pub fn callers(&self) -> u64
        ensures { result ≡ self.now }
    {
        self.callers
    }

    /// Adds those of another one.
    pub fn join(&mut self, others: Unroused)
        ensures { self.new ≡ bit_or self.old others }
    {
        self.callers |= others.callers;
    }
}

impl<R> Map<R> {
    /// The caller's bit in the word of all who wait.
    fn own_bit(&self, caller: &Caller<R>) -> u64
        requires { IsCallerOf self.now caller.now }
        ensures { result ≡ bit_of (record_of caller.now).number }
    {
        1 << caller.number
    }

    /// The caller joins all who wait, before it lists itself. One step, `fetch_or`.
    pub fn enter(&self, caller: &mut Caller<R>)
        requires { IsCallerOf self.now caller.old }
        ensures caller { IsCallerOf self.now caller.new }
        ensures step { (found : ℕ) × Adds (Bell (Enter (record_of caller.old).number found)) caller.old caller.new }
        ensures kept { HoldsSame caller.old caller.new }
    {
        let bit = self.own_bit(caller);
        let table = &self.table.shared;
        table.fetch_or::<Entering>(&mut caller.seat, waiters_spot(), bit);
    }

    /// The caller leaves all who wait, after it got up. One step, `fetch_and`.
    pub fn leave(&self, caller: &mut Caller<R>)
        requires caller { IsCallerOf self.now caller.old }
        requires last { HasGotUp caller.old }
        ensures caller { IsCallerOf self.now caller.new }
        ensures step { (found : ℕ) × Adds (Bell (Leave (record_of caller.old).number found)) caller.old caller.new }
        ensures kept { HoldsSame caller.old caller.new }
    {
        let bit = self.own_bit(caller);
        let table = &self.table.shared;
        table.fetch_and::<Leaving>(&mut caller.seat, waiters_spot(), !bit);
    }

    /// Returns all who wait: a bit is 1 if the caller of that number does. One step, a load.
    pub fn look_all(&self, caller: &mut Caller<R>) -> u64
        requires { IsCallerOf self.now caller.old }
        ensures caller { IsCallerOf self.now caller.new }
        ensures step { Adds (Bell (LookAll result)) caller.old caller.new }
        ensures kept { HoldsSame caller.old caller.new }
    {
        let table = &self.table.shared;
        table.load::<LookingAll>(&mut caller.seat, waiters_spot())
    }

    /// Returns the next turn, which the caller takes. One step, `fetch_add` of the clock, which counts by 8 so that it
    /// begins anew after `TURNS` turns.
    pub fn take_turn(&self, caller: &mut Caller<R>) -> u64
        requires { IsCallerOf self.now caller.old }
        ensures caller { IsCallerOf self.now caller.new }
        ensures step { Adds (Bell (TakeTurn result)) caller.old caller.new }
        ensures within { result < TURNS }
        ensures kept { HoldsSame caller.old caller.new }
    {
        let table = &self.table.shared;
        let found = table.fetch_add::<TakingTurn>(&mut caller.seat, clock_spot(), 8);
        found / 8
    }

    /// Lists the caller as this waiter, with a turn that it took, and returns its berth as it was. It is among all who
    /// wait already. One step, a swap.
    pub fn enlist(&self, caller: &mut Caller<R>, waiter: Waiter, turn: u64) -> Berth
        requires caller { IsCallerOf self.now caller.old }
        requires first { IsAmongWaiters caller.old }
        requires taken { HasTaken turn (record_of caller.old).steps }
        ensures caller { IsCallerOf self.now caller.new }
        ensures step { Adds (Bell (Enlist (record_of caller.old).number waiter turn result)) caller.old caller.new }
        ensures own { AgreesWith (record_of caller.old).steps result }
        ensures kept { HoldsSame caller.old caller.new }
    {
        let word = Berth::Listed(waiter, turn).to_word();
        let table = &self.table.shared;
        let found = table.swap::<Enlisting>(&mut caller.seat, berth_spot(caller.number), word);
        Berth::of_word(found)
    }

    /// Returns the berth of the caller of this number, which may be the caller itself. One step, a load.
    pub fn look_at(&self, caller: &mut Caller<R>, whom: u32) -> Berth
        requires caller { IsCallerOf self.now caller.old }
        requires within { whom < MAX_CALLERS }
        ensures caller { IsCallerOf self.now caller.new }
        ensures step { Adds (Bell (LookAt whom result)) caller.old caller.new }
        ensures fits { TurnFits result }
        ensures own { whom ≡ (record_of caller.old).number → AgreesWith (record_of caller.old).steps result }
        ensures kept { HoldsSame caller.old caller.new }
    {
        let table = &self.table.shared;
        let found = table.load::<LookingAt>(&mut caller.seat, berth_spot(whom));
        Berth::of_word(found)
    }

    /// Returns the caller's own berth. One step, a load.
    pub fn look_at_own(&self, caller: &mut Caller<R>) -> Berth
        requires { IsCallerOf self.now caller.old }
        ensures caller { IsCallerOf self.now caller.new }
        ensures step { Adds (Bell (LookAt (record_of caller.old).number result)) caller.old caller.new }
        ensures fits { TurnFits result }
        ensures own { AgreesWith (record_of caller.old).steps result }
        ensures kept { HoldsSame caller.old caller.new }
    {
        let number = caller.number;
        self.look_at(caller, number)
    }

    /// Tells the caller of this number, if it is listed as this waiter with this turn, and returns it then. One step, a
    /// compare-and-exchange.
    pub fn tell(&self, caller: &mut Caller<R>, whom: u32, waiter: Waiter, turn: u64) -> Unroused
        requires caller { IsCallerOf self.now caller.old }
        requires within { whom < MAX_CALLERS }
        requires fits { turn < TURNS }
        ensures caller { IsCallerOf self.now caller.new }
        ensures step { (found : BerthIs) × Adds (Bell (Tell whom waiter turn found)) caller.old caller.new
            × (result ≡ newly_told whom waiter turn found) }
        ensures kept { HoldsSame caller.old caller.new }
    {
        let listed = Berth::Listed(waiter, turn).to_word();
        let told = Berth::Told(waiter, turn).to_word();
        let table = &self.table.shared;
        let found = table.compare_exchange::<Telling>(
            &mut caller.seat,
            berth_spot(whom),
            listed,
            told,
        );
        if found != listed {
            return Unroused::none();
        }
        Unroused { callers: 1 << whom }
    }

    /// The caller gets up: it is listed no more. Returns its berth as it was, which shows whether somebody had told it. One
    /// step, a swap.
    pub fn get_up(&self, caller: &mut Caller<R>) -> Berth
        requires { IsCallerOf self.now caller.old }
        ensures caller { IsCallerOf self.now caller.new }
        ensures step { Adds (Bell (GetUp (record_of caller.old).number result)) caller.old caller.new }
        ensures own { AgreesWith (record_of caller.old).steps result }
        ensures kept { HoldsSame caller.old caller.new }
    {
        let table = &self.table.shared;
        let found = table.swap::<GettingUp>(&mut caller.seat, berth_spot(caller.number), 0);
        Berth::of_word(found)
    }
}
