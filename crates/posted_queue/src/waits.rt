//! Nexts that wait: waits for a token, by the waits of the tokens' pool.
ghost use Rattle.std.specs.Prelude.{◌≡◌, ◌↔◌, IfOk, IsTrue};
ghost use Rattle.refusals.specs.Refusals.{RefusesBy};
ghost use Rattle.tag_bell.specs.Sleeping.{told_by};
ghost use Rattle.tag_pool.specs.Hands.{IsHandOf, IsStillOf};
ghost use Rattle.tag_pool.specs.Refusals.{blocking_checks};
ghost use Rattle.tag_pool.specs.Waits.{CanWait, GetsBlocking};
ghost use Rattle.tag_pool.specs.declared.kind.Kind.TheVariants.{Ordinary};
ghost use Rattle.posted_queue.specs.Hands.{IsOwnOf, IsStillOwnOf, in_tokens, tokens_of};
ghost use Rattle.posted_queue.specs.Serving.{WinsAndServes};
ghost use Rattle.posted_queue.specs.Waits.{Goes};
ghost use Rattle.posted_queue.specs.declared.waits.Round.TheVariants.{Over};

use crate::nexts::Popped;
use crate::queue::{PostedHand, PostedQueue};
use std::sync::Wait;
use tag_bell::{Told, Turn, Woken};
use tag_pool::{Got, Hand, Kind, Next, Pool, TagFault, Waiter};

/// What one round of a wait in a queue came to.
#[derive(Clone, Copy, Debug, PartialEq, Eq)]
pub enum Round {
    /// The hand has popped this number, and waits no more.
    Came(Popped),
    /// It waits no more, and has popped none.
    Over,
    /// It sleeps until it is told, or its wait is to end.
    Sleep,
}

impl PostedHand {
    /// Returns whether the hand can wait in the queue (`wait_on`). This makes no step.
    pub fn can_wait(&self) -> bool
        ensures { IsTrue result ↔ CanWait Ordinary (in_tokens self.now) }
    {
        self.tokens.can_wait(Kind::Ordinary)
    }
}

impl PostedQueue {
    /// Takes the tag that was submitted first like `next`, and sleeps as long as none is queued. Nothing promises that it
    /// returns. `NoSuchTag` means that the pool has no tags, `Spent` is that of `next`.
    pub fn next_blocking<R: Copy, W: Wait>(
        &self,
        rt: &W,
        pool: &Pool<R>,
        hand: &mut Hand<R>,
        own: &mut PostedHand,
    ) -> Result<Got<Popped>, TagFault>
        requires hand { IsHandOf pool.now hand.old }
        requires own { IsOwnOf self.now own.old }
        ensures hand { IsStillOf pool.now hand.old hand.new }
        ensures own { IsStillOwnOf self.now own.old own.new }
        ensures refusals { RefusesBy (blocking_checks (tokens_of self.now) (in_tokens own.old) Ordinary)
            ((hand.new ≡ hand.old) × (own.new ≡ own.old)) result }
        ensures nexts { IfOk result (λ got.
            WinsAndServes self.now pool.now (λ token. GetsBlocking (tokens_of self.now) Ordinary token got.woken) got.answer
            hand.old hand.new own.old own.new) }
    {
        let Got { answer, woken } = self.tokens.get_blocking(rt, &mut own.tokens)?;
        let answer = self.serve(rt, pool, hand, own, answer);
        Ok(Got { answer, woken })
    }

    /// One round of a wait in the queue as this waiter, as `Pool::wait_on` is one of a wait for a tag: if it answers
    /// `Sleep`, the hand may sleep, and can wait again. Otherwise it waits no more, and those told are to be woken
    /// (`wake_told`).
    pub fn wait_on<R: Copy, W: Wait>(
        &self,
        rt: &W,
        pool: &Pool<R>,
        hand: &mut Hand<R>,
        own: &mut PostedHand,
        waiter: Waiter,
        is_over: bool,
        turn: Turn,
    ) -> (Round, Told)
        requires hand { IsHandOf pool.now hand.old }
        requires own { IsOwnOf self.now own.old }
        requires can { CanWait Ordinary (in_tokens own.old) }
        ensures hand { IsStillOf pool.now hand.old hand.new }
        ensures own { IsStillOwnOf self.now own.old own.new }
        ensures over { result.0 ≡ Over ↔ IsTrue is_over }
        ensures goes { Goes self.now pool.now waiter turn result.0 result.1 hand.old hand.new own.old own.new }
    {
        let (next, told) = self
            .tokens
            .wait_on(&mut own.tokens, Kind::Ordinary, waiter, is_over, turn);
        match next {
            Next::Won(token) => {
                let popped = self.serve(rt, pool, hand, own, token);
                (Round::Came(popped), told)
            }
            Next::Over => (Round::Over, told),
            Next::Sleep => (Round::Sleep, told),
        }
    }

    /// Wakes the sleepers among those that a round told. It makes no step.
    pub fn wake_told(&self, told: Told) -> Woken
        ensures { told_by result ≡ told }
    {
        self.tokens.wake_told(Kind::Ordinary, told)
    }
}
