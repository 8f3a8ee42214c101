//! A wait for a tag of a set by the bell, round by round. Whoever calls sleeps between two rounds as it likes, and may end
//! the wait: a limit, a stop and a cancel each only end a sleep, and a sleep that ends for no reason is one round more.
ghost use Rattle.std.specs.Prelude.{◌≡◌, ◌↔◌, IfOk, IsTrue};
ghost use Rattle.refusals.specs.Refusals.{RefusesBy};
ghost use Rattle.tag_core.specs.declared.berth.Waiter.TheVariants as waiters;
ghost use Rattle.tag_bell.specs.Callers.{IsWaiting};
ghost use Rattle.tag_search.specs.Vain.{MaySleep};
ghost use Rattle.tag_pool.specs.Hands.{caller_of, IsHandOf, IsStillOf};
ghost use Rattle.tag_pool.specs.Refusals.{blocking_checks};
ghost use Rattle.tag_pool.specs.Waits.{Beside, CanWait, EndsWait, GetsUntil, Goes, Sleeps, Tries};
ghost use Rattle.tag_pool.specs.declared.gets.rounds.Next.TheVariants.{Over};
ghost use Rattle.tag_pool.specs.declared.kind.Kind.TheVariants.{Ordinary, Reserved};

use crate::fault::TagFault;
use crate::hand::Hand;
use crate::kind::Kind;
use crate::pool::Pool;
use tag_bell::{Told, Turn};
use tag_core::Waiter;
use tag_search::Hint;

/// What a hand that waits does next.
#[derive(Clone, Copy, Debug, PartialEq, Eq)]
pub enum Next {
    /// It has this tag, and waits no more.
    Won(u32),
    /// It waits no more, and has no tag.
    Over,
    /// It sleeps until it is told, or its wait is to end.
    Sleep,
}

/// How a hand sleeps between two rounds of its wait.
pub trait Sleeper<R> {
    ghost use Rattle.std.specs.Prelude.{IsTrue};

    // The sleeper has ended the wait.
    ghost has_ended: { Self → Type 0 };

    /// Sleeps until the hand may have been told or its wait is to end: it may return at any time. Returns whether the wait
    /// is to end. The hand waits for a tag of this kind, and may sleep: it is listed, has tried each tag in vain since, and
    /// has nothing to see to.
    fn sleep(&mut self, pool: &Pool<R>, hand: &Hand<R>, kind: Kind) -> bool
        requires hand { IsHandOf pool.now hand.now }
        requires waiting { IsWaiting waiters.Sleeper (caller_of hand.now kind) }
        requires may { MaySleep (caller_of hand.now kind) }
        ensures ended { IsTrue result → has_ended self.new };
}

impl<R> Hand<R> {
    /// Returns whether the hand can wait for a tag of this kind (`wait_on`): it may win one more, and its next get tries each,
    /// as each get does that is not round robin, and each that follows one that found none. This makes no step.
    pub fn can_wait(&self, kind: Kind) -> bool
        ensures { IsTrue result ↔ CanWait kind self.now }
    {
        let side = self.side(kind);
        let Hint { at, round_robin } = side.hint;
        side.caller.room(1) && (!round_robin || at == 0)
    }
}

impl<R: Copy> Pool<R> {
    /// Takes a free ordinary tag like `get`, and as long as it finds none waits by the bell, until the sleeper ends the
    /// wait: it gives up for no other reason before 2^64 - 1 sleeps. Returns the tag, and whom it told, who are to be woken:
    /// with a tag or without one it sees to all tags first.
    /// `NoSuchTag` means that there are no ordinary tags, `Spent` that the hand's life in the ordinary set is used up.
    pub fn get_until<S: Sleeper<R>>(
        &self,
        sleeper: &mut S,
        hand: &mut Hand<R>,
    ) -> Result<(Option<u32>, Told), TagFault>
        requires hand { IsHandOf self.now hand.old }
        ensures hand { IsStillOf self.now hand.old hand.new }
        ensures refusals { RefusesBy (blocking_checks self.now hand.old Ordinary) (hand.new ≡ hand.old) result }
        ensures gets { IfOk result (λ got.
            GetsUntil self.now Ordinary Beside (S.has_ended sleeper.new) got.0 got.1 hand.old hand.new) }
    {
        self.wait_for(sleeper, hand, Kind::Ordinary)
    }

    /// Takes a free reserved tag like `get_reserved`, and waits for one as `get_until` does for an ordinary tag.
    /// `NoReserved` means that there are no reserved tags, `Spent` that the hand's life in the reserved set is used up.
    pub fn get_reserved_until<S: Sleeper<R>>(
        &self,
        sleeper: &mut S,
        hand: &mut Hand<R>,
    ) -> Result<(Option<u32>, Told), TagFault>
        requires hand { IsHandOf self.now hand.old }
        ensures hand { IsStillOf self.now hand.old hand.new }
        ensures refusals { RefusesBy (blocking_checks self.now hand.old Reserved) (hand.new ≡ hand.old) result }
        ensures gets { IfOk result (λ got.
            GetsUntil self.now Reserved Beside (S.has_ended sleeper.new) got.0 got.1 hand.old hand.new) }
    {
        self.wait_for(sleeper, hand, Kind::Reserved)
    }

    /// Takes a free tag of this kind, and as long as it finds none waits until the sleeper ends the wait.
    fn wait_for<S: Sleeper<R>>(
        &self,
        sleeper: &mut S,
        hand: &mut Hand<R>,
        kind: Kind,
    ) -> Result<(Option<u32>, Told), TagFault>
        requires hand { IsHandOf self.now hand.old }
        ensures hand { IsStillOf self.now hand.old hand.new }
        ensures refusals { RefusesBy (blocking_checks self.now hand.old kind) (hand.new ≡ hand.old) result }
        ensures gets { IfOk result (λ got.
            GetsUntil self.now kind Beside (S.has_ended sleeper.new) got.0 got.1 hand.old hand.new) }
    {
        self.check_blocking(hand, kind)?;
        if let Some(tag) = self.try_get(hand, kind) {
            return Ok((Some(tag), self.see_to_all(hand, kind)));
        }
        Ok(self.sleep_until(sleeper, hand, kind))
    }

    /// Sleeps until the hand wins a tag or the sleeper ends the wait, after a get that found none.
    fn sleep_until<S: Sleeper<R>>(
        &self,
        sleeper: &mut S,
        hand: &mut Hand<R>,
        kind: Kind,
    ) -> (Option<u32>, Told)
        requires hand { IsHandOf self.now hand.old }
        requires can { CanWait kind hand.old }
        ensures hand { IsStillOf self.now hand.old hand.new }
        ensures sleeps { Sleeps self.now kind Beside (S.has_ended sleeper.new) result.0 result.1 hand.old hand.new }
    {
        let mut is_over = false;
        let mut turn = Turn::Next;
        for _ in 0..u64::MAX {
            match self.wait_on(hand, kind, Waiter::Sleeper, is_over, turn) {
                (Next::Won(tag), told) => return (Some(tag), told),
                (Next::Over, told) => return (None, told),
                (Next::Sleep, _) => {}
            }
            is_over = sleeper.sleep(self, hand, kind);
            turn = Turn::Same;
        }
        (None, self.give_up(hand, kind))
    }

    /// One round of a wait for a tag of this kind: lists the hand as this waiter and tries each tag, or ends the wait. If it
    /// answers `Sleep`, the hand may sleep, and can wait again. Otherwise it waits no more and has nothing to see to, and
    /// those told are to be woken.
    pub fn wait_on(
        &self,
        hand: &mut Hand<R>,
        kind: Kind,
        waiter: Waiter,
        is_over: bool,
        turn: Turn,
    ) -> (Next, Told)
        requires hand { IsHandOf self.now hand.old }
        requires can { CanWait kind hand.old }
        ensures hand { IsStillOf self.now hand.old hand.new }
        ensures over { result.0 ≡ Over ↔ IsTrue is_over }
        ensures goes { Goes self.now kind waiter turn result.0 result.1 hand.old hand.new }
    {
        if is_over {
            return (Next::Over, self.give_up(hand, kind));
        }
        match self.try_listed(hand, kind, waiter, turn) {
            (Some(tag), told) => (Next::Won(tag), told),
            (None, told) => (Next::Sleep, told),
        }
    }

    /// Lists the hand and tries each tag. If it wins one it ends the wait, and otherwise it may sleep.
    pub(super) fn try_listed(
        &self,
        hand: &mut Hand<R>,
        kind: Kind,
        waiter: Waiter,
        turn: Turn,
    ) -> (Option<u32>, Told)
        requires hand { IsHandOf self.now hand.old }
        requires can { CanWait kind hand.old }
        ensures hand { IsStillOf self.now hand.old hand.new }
        ensures tries { Tries self.now kind waiter turn result.0 result.1 hand.old hand.new }
    {
        self.list_self(hand, kind, waiter, turn);
        let Some(tag) = self.try_get(hand, kind) else {
            return (None, Told::none());
        };
        (Some(tag), self.give_up(hand, kind))
    }

    /// Ends a wait: gets up, and then sees to all tags.
    fn give_up(&self, hand: &mut Hand<R>, kind: Kind) -> Told
        requires hand { IsHandOf self.now hand.old }
        ensures hand { IsStillOf self.now hand.old hand.new }
        ensures ends { EndsWait self.now kind result hand.old hand.new }
    {
        self.get_up(hand, kind);
        self.see_to_all(hand, kind)
    }
}
