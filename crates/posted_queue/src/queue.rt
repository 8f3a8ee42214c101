//! A queue of posted tags, and the handle through which one thread uses it.
ghost use Rattle.std.specs.Prelude.{◌≡◌, ◌≤◌};
ghost use Rattle.tag_pool.specs.Hands.{hands_of, total_of};
ghost use Rattle.posted_queue.specs.Assigned.{tags_in};

use crate::assigned::{Assigning, Assignments};
use crate::line::{Line, Standing, Track};
use atomic_table::Seat;
use crossbeam_queue::Pass;
use std::sync::Wait;
use step_ledger::Numbered;
use tag_pool::{Hand, Pool};

/// A queue of posted tags of one pool. Each free token stands for one queued tag; who stands for which doesn't matter.
/// Each tag that is in no queue has a token that is posted.
pub struct PostedQueue {
    /// As many tokens as the pool has tags.
    pub(crate) tokens: Pool<()>,
    /// The numbers of the queued tags.
    pub(crate) line: Line,
    /// For each tag its token, or `NO_TOKEN` while its number is in the line.
    pub(crate) token_of: Assignments,
    /// Number of hands, 1 to 64.
    pub(crate) hand_count: u32,
    ghost as_many: { hands_of tokens ≡ hand_count },
    ghost all: { total_of tokens ≤ tags_in token_of },
}

/// What one hand of a pool has of a queue. Between calls it holds no token.
#[derive(Drop)]
pub struct PostedHand {
    pub(crate) pass: Pass<u32, Track>,
    pub(crate) seat: Seat<(), Assigning>,
    /// Must be the last field: it ends with padding.
    pub(crate) tokens: Hand<()>,
}

impl Numbered for PostedHand {
    ghost use Rattle.posted_queue.specs.Hands.{number_of as own_number};

    ghost number_of = { own_number };

    fn number(&self) -> u32 {
        self.tokens.number()
    }
}

impl Drop for PostedQueue {
    fn drop(self) {
        self.into_tokens().discard();
    }
}

impl PostedQueue {
    /// Returns the tokens, and drops the rest.
    pub(crate) fn into_tokens(self) -> Pool<()>
        ensures { result ≡ self.tokens }
    {
        let PostedQueue {
            tokens,
            line: _line,
            token_of: _token_of,
            hand_count: _hand_count,
        } = self;
        tokens
    }

    ghost use Rattle.crossbeam_queue.specs.Fifo.{Held};
    ghost use Rattle.posted_queue.specs.Hands.{assigning_of, hands_of as hand_total, in_tokens, track_of};
    ghost use Rattle.posted_queue.specs.Hands.{IsOwnOf, IsStillOwnOf};
    ghost use Rattle.posted_queue.specs.Line.{IsSeenBy};

    /// Returns the number of hands, 1 to 64.
    pub(crate) fn hand_count(&self) -> u32
        ensures { result ≡ hand_total self.now }
    {
        self.hand_count
    }

    /// Returns how many numbers of tags stood in the line at one moment of the call. No clause says how many at least, since
    /// other hands may have popped any of them.
    pub fn queued<W: Wait>(&self, rt: &W, own: &mut PostedHand) -> usize
        requires own { IsOwnOf self.now own.old }
        ensures own { IsStillOwnOf self.now own.old own.new }
        ensures held { Held result (IsSeenBy (track_of own.old)) }
        ensures unchanged { (track_of own.new ≡ track_of own.old) × (in_tokens own.new ≡ in_tokens own.old)
            × (assigning_of own.new ≡ assigning_of own.old) }
    {
        self.line.len_as::<Standing, W>(rt, &mut own.pass)
    }
}
