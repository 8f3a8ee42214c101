//! Nexts: a token is won, and with it the oldest number of the line, whose tag is taken.
ghost use Rattle.std.specs.Prelude.{◌≡◌, IfOk};
ghost use Rattle.crossbeam_queue.specs.Passes.{IsPassOf, IsSamePass};
ghost use Rattle.refusals.specs.Refusals.{RefusesBy};
ghost use Rattle.tag_pool.specs.Hands.{Holds, IsHandOf, IsStillOf};
ghost use Rattle.tag_pool.specs.Refusals.{get_checks};
ghost use Rattle.posted_queue.specs.Hands.{IsOwnOf, IsStillOwnOf, assigning_of, in_tokens, tokens_of, track_of};
ghost use Rattle.posted_queue.specs.Assigned.{IsSeatOf, assigning_in};
ghost use Rattle.posted_queue.specs.Serving.{AssignsWithin, Nexts, Serves};

use crate::assigned::Assigning;
use crate::line::pop_number;
use crate::queue::{PostedHand, PostedQueue};
use atomic_table::Seat;
use std::sync::Wait;
use tag_pool::{Got, Hand, Pool, TagFault};

/// The oldest number of the line.
#[derive(Clone, Copy, Debug, PartialEq, Eq)]
pub enum Popped {
    /// The hand has taken the tag of this number, with its slot.
    Tag(u32),
    /// The hand's take found the tag of this number not posted, as where somebody took it past the queue.
    Skipped(u32),
}

impl PostedQueue {
    /// Takes the tag that was submitted first. `None` means that each token that the search looked at was found taken at
    /// some moment of the call: no tag was queued for it then. `Skipped` means that the number is out of the line, and the
    /// hand has no tag: call again. Whatever it answers, it tells those that wait of the tokens that its search left free,
    /// as `Pool::get` does. `Spent` means that the hand has won as many tokens as it may, 2^48.
    pub fn next<R: Copy, W: Wait>(
        &self,
        rt: &W,
        pool: &Pool<R>,
        hand: &mut Hand<R>,
        own: &mut PostedHand,
    ) -> Result<Got<Option<Popped>>, TagFault>
        requires hand { IsHandOf pool.now hand.old }
        requires own { IsOwnOf self.now own.old }
        ensures hand { IsStillOf pool.now hand.old hand.new }
        ensures own { IsStillOwnOf self.now own.old own.new }
        ensures refusals { RefusesBy (get_checks (in_tokens own.old)) ((hand.new ≡ hand.old) × (own.new ≡ own.old)) result }
        ensures nexts { IfOk result (λ got.
            Nexts self.now pool.now got.answer got.woken hand.old hand.new own.old own.new) }
    {
        let Got { answer, woken } = self.tokens.get(&mut own.tokens)?;
        let Some(token) = answer else {
            return Ok(Got {
                answer: None,
                woken,
            });
        };
        let popped = self.serve(rt, pool, hand, own, token);
        Ok(Got {
            answer: Some(popped),
            woken,
        })
    }

    /// Pops the oldest number for a token that the hand won, makes the token that tag's, and takes the tag.
    pub(crate) fn serve<R: Copy, W: Wait>(
        &self,
        rt: &W,
        pool: &Pool<R>,
        hand: &mut Hand<R>,
        own: &mut PostedHand,
        token: u32,
    ) -> Popped
        requires hand { IsHandOf pool.now hand.old }
        requires tokens { IsHandOf (tokens_of self.now) (in_tokens own.old) }
        requires pass { IsPassOf self.now.line own.old.pass }
        requires seat { IsSeatOf self.now.token_of own.old.seat }
        requires held { Holds (in_tokens own.old) token }
        ensures hand { IsStillOf pool.now hand.old hand.new }
        ensures tokens { IsStillOf (tokens_of self.now) (in_tokens own.old) (in_tokens own.new) }
        ensures pass { IsPassOf self.now.line own.new.pass × IsSamePass own.old.pass own.new.pass }
        ensures seat { IsSeatOf self.now.token_of own.new.seat }
        ensures serves { Serves self.now pool.now token result hand.old hand.new (in_tokens own.old) (in_tokens own.new)
            (track_of own.old) (track_of own.new) (assigning_of own.old) (assigning_of own.new) }
    {
        let tag = pop_number(rt, &self.line, &mut own.pass);
        self.assign_token(&mut own.seat, tag, token);
        let Ok(()) = self.tokens.post(&mut own.tokens, token) else {
            unreachable!()
        };
        match pool.take(hand, tag) {
            Ok(()) => Popped::Tag(tag),
            Err(_) => Popped::Skipped(tag),
        }
    }

    /// Lets the tag of this number go by the token, if the queue has a token for a tag of this number.
    fn assign_token(&self, seat: &mut Seat<(), Assigning>, tag: u32, token: u32)
        requires seat { IsSeatOf self.now.token_of seat.old }
        ensures seat { IsSeatOf self.now.token_of seat.new }
        ensures assigns { AssignsWithin self.now tag token (assigning_in seat.old) (assigning_in seat.new) }
    {
        if tag < self.tokens.depth() {
            self.token_of.assign(seat, tag, u64::from(token));
        }
    }
}
