//! Rounds of a wait for a tag by the bell, through the handle of a hand. The C files of the library make these calls,
//! and between two rounds they sleep, or wait to be notified. They end a wait by a round, too: whoever calls says why it is
//! over.
ghost use Rattle.std.specs.Prelude.{◌≡◌, ◌≤◌, IfOk};
ghost use Rattle.refusals.specs.Refusals.{RefusesBy};
ghost use Rattle.tag_layout.specs.declared.layout.TheConstants.{MAX_DEPTH};
ghost use Rattle.tag_core.specs.declared.berth.Waiter.TheVariants.{Listener, Sleeper};
ghost use Rattle.tag_pool.specs.declared.kind.Kind.TheVariants.{Ordinary, Reserved};
ghost use Rattle.tag_c.specs.Calls.{CallsBy};
ghost use Rattle.tag_c.specs.Exports.{HasHand};
ghost use Rattle.tag_c.specs.Rounds.{code_of_round, is_over, turn_of, CallsRound, IfWon};

use crate::any_hand::{AnyHand, on_hand};
use crate::bell::ToldHands;
use crate::cached::CachedMember;
use crate::handle::Handle;
use crate::member::Member;
use crate::rounds::bare::make_round;
use crate::rounds::caching::make_round_over;
use crate::status::{Status, fault_code};
use tag_pool::{Kind, Next, TagFault, Turn, Waiter};

mod bare;
mod caching;

/// Returns the turn that the hand had, or the next one if `again` is 0.
#[inline]
fn turn_of(again: u32) -> Turn
    ensures { result ≡ turn_of again }
{
    if again == 0 { Turn::Next } else { Turn::Same }
}

/// Returns whether the wait is over: why is 0 if not.
#[inline]
fn is_over(why: i32) -> bool
    ensures { result ≡ is_over why }
{
    why != 0
}

/// Returns the tag won; `NoTag` if the hand may sleep, or waits to be notified; why the wait is over; or why the hand can't
/// wait.
fn round_code(answer: Result<Next, TagFault>, why: i32) -> i32
    requires { IfOk answer (IfWon (λ tag. tag ≤ MAX_DEPTH)) }
    ensures { result ≡ code_of_round why answer }
{
    match answer {
        Ok(Next::Won(tag)) => tag as i32,
        Ok(Next::Sleep) => Status::NoTag.code(),
        Ok(Next::Over) => why,
        Err(fault) => fault_code(fault),
    }
}

/// Rounds of a wait.
trait RoundCalls: AnyHand {
    /// Makes a round for a tag of this kind as this waiter, with this turn, and fills in whom it told. If `why` is not 0
    /// the wait is over, and it returns that.
    fn make_round(
        &mut self,
        kind: Kind,
        waiter: Waiter,
        why: i32,
        turn: Turn,
        told: &mut ToldHands,
    ) -> i32
        ensures { Self.changes (CallsRound kind waiter turn why told.new result) self.old self.new };
}

impl RoundCalls for Member {
    #[inline(always)]
    fn make_round(
        &mut self,
        kind: Kind,
        waiter: Waiter,
        why: i32,
        turn: Turn,
        told: &mut ToldHands,
    ) -> i32 {
        let (answer, whom) = make_round(
            &self.shared.tags,
            &mut self.hand,
            kind,
            waiter,
            is_over(why),
            turn,
        );
        *told = ToldHands::of(whom);
        round_code(answer, why)
    }
}

impl RoundCalls for CachedMember {
    #[inline(always)]
    fn make_round(
        &mut self,
        kind: Kind,
        waiter: Waiter,
        why: i32,
        turn: Turn,
        told: &mut ToldHands,
    ) -> i32 {
        let (answer, whom) = make_round_over(
            &self.shared.tags,
            &mut self.cache,
            kind,
            waiter,
            is_over(why),
            turn,
        );
        *told = ToldHands::of(whom);
        round_code(answer, why)
    }
}

#[unsafe(no_mangle)]
pub extern "C" fn tags_wait_on(hand: &mut Handle, why: i32, again: u32, told: &mut ToldHands) -> i32
    ensures calls { CallsBy (CallsRound Ordinary Sleeper (turn_of again) why told.new result) result
        hand.old.object.value hand.new.object.value }
    ensures kept { ¬ (HasHand hand.old.object.value) → told.new ≡ told.old }
{
    let turn = turn_of(again);
    on_hand!(hand.make_round(Kind::Ordinary, Waiter::Sleeper, why, turn, told))
}

#[unsafe(no_mangle)]
pub extern "C" fn tags_listen_on(
    hand: &mut Handle,
    why: i32,
    again: u32,
    told: &mut ToldHands,
) -> i32
    ensures calls { CallsBy (CallsRound Ordinary Listener (turn_of again) why told.new result) result
        hand.old.object.value hand.new.object.value }
    ensures kept { ¬ (HasHand hand.old.object.value) → told.new ≡ told.old }
{
    let turn = turn_of(again);
    on_hand!(hand.make_round(Kind::Ordinary, Waiter::Listener, why, turn, told))
}

#[unsafe(no_mangle)]
pub extern "C" fn tags_wait_on_reserved(
    hand: &mut Handle,
    why: i32,
    again: u32,
    told: &mut ToldHands,
) -> i32
    ensures calls { CallsBy (CallsRound Reserved Sleeper (turn_of again) why told.new result) result
        hand.old.object.value hand.new.object.value }
    ensures kept { ¬ (HasHand hand.old.object.value) → told.new ≡ told.old }
{
    let turn = turn_of(again);
    on_hand!(hand.make_round(Kind::Reserved, Waiter::Sleeper, why, turn, told))
}

#[unsafe(no_mangle)]
pub extern "C" fn tags_listen_on_reserved(
    hand: &mut Handle,
    why: i32,
    again: u32,
    told: &mut ToldHands,
) -> i32
    ensures calls { CallsBy (CallsRound Reserved Listener (turn_of again) why told.new result) result
        hand.old.object.value hand.new.object.value }
    ensures kept { ¬ (HasHand hand.old.object.value) → told.new ≡ told.old }
{
    let turn = turn_of(again);
    on_hand!(hand.make_round(Kind::Reserved, Waiter::Listener, why, turn, told))
}
