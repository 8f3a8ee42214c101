//! Opens a queue with its hands.
ghost use Rattle.std.specs.Prelude.{◌≡◌, [], All, IfOk, OnOk, map};
ghost use Rattle.crossbeam_queue.specs.Passes.{IsPassOf};
ghost use Rattle.refusals.specs.Refusals.{RefusesOrRunsOut};
ghost use Rattle.tag_pool.specs.Hands.{IsHandOf, IsStillOf, number_of};
ghost use Rattle.tag_pool.specs.Opening.{HoldsNone, IsOpen as IsOpenPool};
ghost use Rattle.tag_pool.specs.Refusals.{open_checks};
ghost use Rattle.posted_queue.specs.Hands.{in_tokens, IsOwnOf, numbers_of, tokens_of};
ghost use Rattle.posted_queue.specs.Opening.{HasSearched, IsNewHand, IsOpen, options_of_tokens as token_options};

use crate::assigned::Assignments;
use crate::line::Line;
use crate::queue::{PostedHand, PostedQueue};
use std::alloc::{AllocError, Global};
use tag_layout::MAX_DEPTH;
use tag_model::MOST_WON;
use tag_pool::{Got, Hand, OpenFault, Options, Pool};

impl PostedQueue {
    /// Opens an empty queue for a pool with these options, and a hand of the queue for each hand of the pool, in the order of
    /// their numbers. It is refused as `Pool::open` is, with the same causes in the same order: `TotalTooLarge`,
    /// `ReservedTooLarge`, `ShiftTooLarge`, `CallerCount`, `LifeTooLong`, `Memory`.
    pub fn open(
        alloc: Global,
        options: Options,
    ) -> Result<(PostedQueue, Vec<PostedHand>), OpenFault>
        ensures ok { IfOk result (λ opened. IsOpen options opened.0 opened.1.items) }
        ensures refusals { RefusesOrRunsOut (open_checks options) OpenFault.Memory result }
    {
        if options.depth <= MAX_DEPTH && options.reserved > options.depth {
            return Err(OpenFault::ReservedTooLarge);
        }
        let (tokens, hands) = Pool::open(alloc, options_of_tokens(options), ())?;
        match lay_out(alloc, tokens, hands, options) {
            Ok(opened) => Ok(opened),
            Err(_) => Err(OpenFault::Memory),
        }
    }
}

/// Returns the options of the tokens for a pool with these options: all are of one kind, and a hand may win as many as any
/// hand may. They are refused for the same causes, but for reserved tags.
fn options_of_tokens(options: Options) -> Options
    ensures { result ≡ token_options options }
{
    Options {
        reserved: 0,
        round_robin: false,
        min_shallow: None,
        life: options.life.max(MOST_WON),
        ..options
    }
}

/// Opens a queue over these new tokens.
fn lay_out(
    alloc: Global,
    tokens: Pool<()>,
    hands: Vec<Hand<()>>,
    options: Options,
) -> Result<(PostedQueue, Vec<PostedHand>), AllocError>
    requires { IsOpenPool (token_options options) tokens hands.items }
    ensures { IfOk result (λ opened. IsOpen options opened.0 opened.1.items) }
{
    let (line, _) = Line::ruled(alloc, options.depth.max(1) as usize)?;
    let queue = PostedQueue {
        tokens,
        line,
        token_of: Assignments::own(alloc, options.depth)?,
        hand_count: options.hands,
    };
    let hands = queue.join(alloc, hands)?;
    Ok((queue, hands))
}

impl PostedQueue {
    /// Makes a hand of the queue of each of these new hands of its tokens, in the same order.
    fn join(&self, alloc: Global, hands: Vec<Hand<()>>) -> Result<Vec<PostedHand>, AllocError>
        requires own { All (IsHandOf (tokens_of self.now)) hands.items }
        requires none { All HoldsNone hands.items }
        ensures numbers { IfOk result (λ joined. numbers_of joined.items ≡ map number_of hands.items) }
        ensures new { IfOk result (λ joined. All (IsNewHand self.now) joined.items) }
    {
        let mut joined = Vec::new(alloc);
        let mut coming = hands.into_iter();
        while let Some(tokens) = coming.next() {
            let own = self.enter(tokens)?;
            joined.push(own)?;
        }
        Ok(joined)
    }

    /// Makes a hand of the queue of this hand of its tokens, once it has found no token free.
    fn enter(&self, mut tokens: Hand<()>) -> Result<PostedHand, AllocError>
        requires own { IsHandOf (tokens_of self.now) tokens }
        requires none { HoldsNone tokens }
        ensures number { IfOk result (λ own. number_of (in_tokens own) ≡ number_of tokens) }
        ensures new { IfOk result (IsNewHand self.now) }
    {
        self.post_all(&mut tokens)?;
        let pass = self.line.pass();
        let seat = self.token_of.seat();
        Ok(PostedHand { pass, seat, tokens })
    }

    /// Posts each token that is free, until a search finds none.
    fn post_all(&self, hand: &mut Hand<()>) -> Result<(), AllocError>
        requires own { IsHandOf (tokens_of self.now) hand.old }
        requires none { HoldsNone hand.old }
        ensures own { IsStillOf (tokens_of self.now) hand.old hand.new }
        ensures searched { OnOk result (HasSearched self.now hand.new) }
        ensures none { OnOk result (HoldsNone hand.new) }
    {
        for _ in 0..=MAX_DEPTH {
            let Ok(Got { answer, .. }) = self.tokens.get(hand) else {
                break;
            };
            let Some(token) = answer else {
                return Ok(());
            };
            let Ok(()) = self.tokens.post(hand, token) else {
                unreachable!()
            };
        }
        // Not reached: a new queue has no more tokens, and a hand may win more than these.
        Err(AllocError)
    }
}
