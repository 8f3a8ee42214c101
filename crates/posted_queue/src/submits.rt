//! Submits: a held tag is posted, its number joins the line, and then its token is freed.
ghost use Rattle.std.specs.Prelude.{◌≡◌, ◌≤◌, IfNone, IfOk, IfSome};
ghost use Rattle.tag_core.specs.declared.posts.TheConstants.{MOST_NOTE};
ghost use Rattle.tag_pool.specs.Hands.{IsHandOf, IsStillOf};
ghost use Rattle.tag_pool.specs.Slots.{Takes};
ghost use Rattle.posted_queue.specs.Hands.{IsOwnOf, IsStillOwnOf, assigning_of, in_tokens, tokens_of};
ghost use Rattle.posted_queue.specs.Assigned.{IsSeatOf};
ghost use Rattle.posted_queue.specs.Submitting.{FindsNoToken, RefusesSubmit, Submits, TakesAssigned};

use crate::assigned::NO_TOKEN;
use crate::fault::SubmitFault;
use crate::line::{Joined, push_number};
use crate::queue::{PostedHand, PostedQueue};
use std::sync::Wait;
use tag_bell::Woken;
use tag_pool::{Hand, Pool, TagFault};

/// What a submit did: who was told of the tag, and when its number joined the line.
#[derive(Drop)]
pub struct Submitted<R> {
    /// Who was told of the tag: those among the sleepers are woken.
    pub woken: Woken,
    /// When the number joined the line.
    pub joined: Joined<R>,
}

impl PostedQueue {
    /// Submits a tag that the hand holds: posts it with its slot, puts its number at the end of the line, and then frees its
    /// token, which tells one of those that wait in the queue, and wakes it if it sleeps. `NoSuchTag` means that the pool has
    /// no tag of this number, `NotHeld` that the hand does not hold it, `StillQueued` that the tag's token was not found
    /// posted: somebody took the tag past the queue by `take`, and its number is still in the line.
    pub fn submit<R: Copy, W: Wait>(
        &self,
        rt: &W,
        pool: &Pool<R>,
        hand: &mut Hand<R>,
        own: &mut PostedHand,
        tag: u32,
    ) -> Result<Submitted<R>, SubmitFault>
        requires hand { IsHandOf pool.now hand.old }
        requires own { IsOwnOf self.now own.old }
        ensures hand { IsStillOf pool.now hand.old hand.new }
        ensures own { IsStillOwnOf self.now own.old own.new }
        ensures refusals { RefusesSubmit self.now pool.now tag result hand.old hand.new own.old own.new }
        ensures submits { IfOk result (λ done. Submits self.now tag 0 done hand.old hand.new own.old own.new) }
    {
        self.submit_noted(rt, pool, hand, own, tag, 0)
    }

    /// Submits a tag as `submit` does, with a note that any hand of the pool may read until the tag is taken, at most
    /// `tag_core::MOST_NOTE`.
    pub fn submit_noted<R: Copy, W: Wait>(
        &self,
        rt: &W,
        pool: &Pool<R>,
        hand: &mut Hand<R>,
        own: &mut PostedHand,
        tag: u32,
        note: u64,
    ) -> Result<Submitted<R>, SubmitFault>
        requires hand { IsHandOf pool.now hand.old }
        requires own { IsOwnOf self.now own.old }
        requires note { note ≤ MOST_NOTE }
        ensures hand { IsStillOf pool.now hand.old hand.new }
        ensures own { IsStillOwnOf self.now own.old own.new }
        ensures refusals { RefusesSubmit self.now pool.now tag result hand.old hand.new own.old own.new }
        ensures submits { IfOk result (λ done. Submits self.now tag note done hand.old hand.new own.old own.new) }
    {
        match pool.find_held(hand, tag) {
            Ok(_) => {}
            Err(TagFault::NoSuchTag) => return Err(SubmitFault::NoSuchTag),
            Err(_) => return Err(SubmitFault::NotHeld),
        }
        let Some(token) = self.take_token(own, tag) else {
            return Err(SubmitFault::StillQueued);
        };
        let Ok(()) = pool.post_noted(hand, tag, note) else {
            unreachable!()
        };
        let joined = push_number(rt, &self.line, &mut own.pass, tag, hand, &own.tokens);
        // Last, so that whoever wins the token finds a number in the line.
        let Ok(woken) = self.tokens.clear(&mut own.tokens, token) else {
            unreachable!()
        };
        Ok(Submitted { woken, joined })
    }

    /// Takes the tag's token, if it is posted, and notes that the tag has none.
    fn take_token(&self, own: &mut PostedHand, tag: u32) -> Option<u32>
        requires tokens { IsHandOf (tokens_of self.now) (in_tokens own.old) }
        requires seat { IsSeatOf self.now.token_of own.old.seat }
        ensures tokens { IsStillOf (tokens_of self.now) (in_tokens own.old) (in_tokens own.new) }
        ensures seat { IsSeatOf self.now.token_of own.new.seat }
        ensures pass { own.new.pass ≡ own.old.pass }
        ensures takes { IfSome result (λ token. Takes token (in_tokens own.old) (in_tokens own.new)) }
        ensures assigned { IfSome result (λ token. TakesAssigned tag token (assigning_of own.old) (assigning_of own.new)) }
        ensures none { IfNone result (FindsNoToken self.now tag own.old own.new) }
    {
        if tag >= self.tokens.depth() {
            return None;
        }
        let found = self.token_of.look_up(&mut own.seat, tag);
        if found >= u64::from(self.tokens.depth()) {
            return None;
        }
        let token = found as u32;
        if self.tokens.take(&mut own.tokens, token).is_err() {
            return None;
        }
        self.token_of.assign(&mut own.seat, tag, NO_TOKEN);
        Some(token)
    }
}
