//! The calls of a bare hand.
ghost use Rattle.std.specs.Prelude.{IsTrue};
ghost use Rattle.tag_pool.specs.Hands.{IsHandOf, Holds};

use crate::tests::answers::{
    Answer, answered, found, got, got_batch, got_one, shown, waited, woken, won_or_over,
};
use crate::tests::calls::Call;
use crate::tests::shared::naps::Naps;
use std::sync::Wait;
use tag_core::MOST_NOTE;
use tag_pool::{Hand, Kind, Pool, TagFault, Turn, Waiter};

/// The most tags of both sets.
pub(crate) const MAX_TAGS: usize = 10_240;

/// Makes a call.
pub(crate) fn act<W: Wait>(rt: &W, pool: &Pool<u64>, hand: &mut Hand<u64>, call: Call) -> Answer
    requires { IsHandOf pool.now hand.old }
    ensures { IsHandOf pool.now hand.new }
{
    match call {
        Call::Get => answered(pool.get(hand).map(got)),
        Call::GetReserved => answered(pool.get_reserved(hand).map(got)),
        Call::GetShallow(depth) => answered(pool.get_shallow(hand, depth).map(got)),
        Call::GetBatch(count) => answered(pool.get_batch(hand, count).map(got_batch)),
        Call::GetExactly(tag) => answered(pool.get_exactly(hand, tag).map(got)),
        Call::GetBlocking => answered(pool.get_blocking(rt, hand).map(got_one)),
        Call::GetQuietly => answered(pool.get_quietly(hand).map(found)),
        Call::GetReservedBlocking => answered(pool.get_reserved_blocking(rt, hand).map(got_one)),
        Call::GetUntil(left) => get_until(pool, hand, Kind::Ordinary, left),
        Call::GetReservedUntil(left) => get_until(pool, hand, Kind::Reserved, left),
        Call::Clear(tag) => answered(pool.clear(hand, tag).map(woken)),
        Call::ClearQuietly(tag) => { answered(pool.clear_quietly(hand, tag).map(|_| Answer::Done)) }
        Call::ClearBoth(one, other) => {
            answered(pool.clear_batch(hand, &[one, other]).map(woken))
        }
        Call::ClearMask(first, mask) => answered(pool.clear_mask(hand, first, mask).map(woken)),
        Call::Read(tag) => answered(pool.read(hand, tag).map(Answer::Value)),
        Call::Write(tag, new) => answered(pool.write(hand, tag, new).map(Answer::Value)),
        Call::Post(tag) => answered(pool.post(hand, tag).map(|()| Answer::Done)),
        Call::PostNoted(tag, note) => post_noted(pool, hand, tag, note),
        Call::Take(tag) => answered(pool.take(hand, tag).map(|()| Answer::Done)),
        Call::ReadNote(tag) => answered(pool.read_note(hand, tag).map(Answer::Noted)),
        Call::Flush => Answer::Told(0),
        Call::Kept => Answer::Nothing,
        _ => wait_or_look(pool, hand, call),
    }
}

/// Posts a tag with a note, if there is such a note.
fn post_noted(pool: &Pool<u64>, hand: &mut Hand<u64>, tag: u32, note: u64) -> Answer
    requires { IsHandOf pool.now hand.old }
    ensures { IsHandOf pool.now hand.new }
{
    if note > MOST_NOTE {
        return Answer::NoSuchCall;
    }
    answered(pool.post_noted(hand, tag, note).map(|()| Answer::Done))
}

/// Makes a call of a wait for an ordinary tag, or another.
fn wait_or_look(pool: &Pool<u64>, hand: &mut Hand<u64>, call: Call) -> Answer
    requires { IsHandOf pool.now hand.old }
    ensures { IsHandOf pool.now hand.new }
{
    match call {
        Call::ListSelf(waiter) => {
            pool.list_self(hand, Kind::Ordinary, waiter, Turn::Next);
            Answer::Done
        }
        Call::ListAgain(waiter) => {
            pool.list_self(hand, Kind::Ordinary, waiter, Turn::Same);
            Answer::Done
        }
        Call::GetUp => Answer::WasTold(pool.get_up(hand, Kind::Ordinary)),
        Call::IsTold => Answer::WasTold(pool.is_told(hand, Kind::Ordinary)),
        Call::WaitOn(is_over) => wait_on(pool, hand, Kind::Ordinary, is_over),
        Call::FindsWaiters => Answer::Waiters(pool.finds_waiters(hand, Kind::Ordinary)),
        Call::SeeTo(freed) => woken(pool.wake(hand, Kind::Ordinary, freed)),
        Call::SeeToAll => woken(pool.wake_next(hand, Kind::Ordinary)),
        Call::WaitInVain => wait_in_vain(pool, hand),
        _ => wait_for_reserved(pool, hand, call),
    }
}

/// Makes a call of a wait for a reserved tag, or one that looks.
fn wait_for_reserved(pool: &Pool<u64>, hand: &mut Hand<u64>, call: Call) -> Answer
    requires { IsHandOf pool.now hand.old }
    ensures { IsHandOf pool.now hand.new }
{
    match call {
        Call::ListReserved(waiter) => {
            pool.list_self(hand, Kind::Reserved, waiter, Turn::Next);
            Answer::Done
        }
        Call::GetUpReserved => Answer::WasTold(pool.get_up(hand, Kind::Reserved)),
        Call::IsToldReserved => Answer::WasTold(pool.is_told(hand, Kind::Reserved)),
        Call::WaitOnReserved(is_over) => wait_on(pool, hand, Kind::Reserved, is_over),
        Call::FindsReservedWaiters => Answer::Waiters(pool.finds_waiters(hand, Kind::Reserved)),
        Call::SeeToReserved(freed) => woken(pool.wake(hand, Kind::Reserved, freed)),
        Call::SeeToAllReserved => woken(pool.wake_next(hand, Kind::Reserved)),
        _ => look(pool, hand, call),
    }
}

/// Makes a call that looks.
fn look(pool: &Pool<u64>, hand: &mut Hand<u64>, call: Call) -> Answer
    requires { IsHandOf pool.now hand.old }
    ensures { IsHandOf pool.now hand.new }
{
    match call {
        Call::Place => {
            pool.place(hand);
            Answer::Done
        }
        Call::Holds(tag) => Answer::Held(has(pool, hand, tag)),
        Call::Agrees(tag) => Answer::Held(agrees(pool, hand, tag)),
        Call::Show(kind) => shown(pool.show(hand, kind)),
        Call::PeekShow(kind) => shown(pool.peek_show(kind)),
        Call::Busy => busy(pool, hand),
        Call::PeekBusy => peek_busy(pool),
        Call::Dump(kind) => dump(pool, hand, kind),
        _ => Answer::NoSuchCall,
    }
}

/// Waits for a tag of this kind until it would sleep once more than so often.
fn get_until(pool: &Pool<u64>, hand: &mut Hand<u64>, kind: Kind, left: u32) -> Answer
    requires { IsHandOf pool.now hand.old }
    ensures { IsHandOf pool.now hand.new }
{
    let got = match kind {
        Kind::Ordinary => pool.get_until(&mut Naps { left }, hand),
        Kind::Reserved => pool.get_reserved_until(&mut Naps { left }, hand),
    };
    match got {
        Ok((answer, whom)) => {
            let woken = pool.wake_told(kind, whom);
            won_or_over(answer, woken)
        }
        Err(fault) => Answer::Refused(fault),
    }
}

/// Makes a round of a wait for a tag of this kind as a sleeper, or ends it.
fn wait_on(pool: &Pool<u64>, hand: &mut Hand<u64>, kind: Kind, is_over: bool) -> Answer
    requires { IsHandOf pool.now hand.old }
    ensures { IsHandOf pool.now hand.new }
{
    if !hand.can_wait(kind) {
        return Answer::CannotWait;
    }
    let (next, whom) = pool.wait_on(hand, kind, Waiter::Sleeper, is_over, Turn::Next);
    let woken = pool.wake_told(kind, whom);
    waited(next, woken)
}

/// Begins a wait, and ends it if it goes on. A tag that it wins is cleared.
fn wait_in_vain(pool: &Pool<u64>, hand: &mut Hand<u64>) -> Answer
    requires { IsHandOf pool.now hand.old }
    ensures { IsHandOf pool.now hand.new }
{
    match wait_on(pool, hand, Kind::Ordinary, false) {
        Answer::Tag(tag) => answered(pool.clear(hand, tag).map(woken)),
        Answer::TagAndTold(tag, _) => answered(pool.clear(hand, tag).map(woken)),
        Answer::Sleeps => wait_on(pool, hand, Kind::Ordinary, true),
        other => other,
    }
}

/// Returns whether the number is a tag's and the hand holds that tag.
pub(crate) fn has(pool: &Pool<u64>, hand: &mut Hand<u64>, tag: u32) -> bool
    requires { IsHandOf pool.now hand.old }
    ensures own { IsHandOf pool.now hand.new }
    ensures held { IsTrue result → Holds hand.new tag }
{
    match pool.read(hand, tag) {
        Err(TagFault::NoSuchTag) => false,
        _ => hand.holds(tag),
    }
}

/// Has the pool establish that the second hand does not hold a tag that the first one holds.
pub(crate) fn part(pool: &Pool<u64>, first: &mut Hand<u64>, second: &mut Hand<u64>, tag: u32)
    requires first { IsHandOf pool.now first.old }
    requires second { IsHandOf pool.now second.old }
    requires held { Holds first.old tag }
    ensures first { IsHandOf pool.now first.new }
    ensures second { IsHandOf pool.now second.new }
{
    pool.apart(first, second, tag);
}

fn agrees(pool: &Pool<u64>, hand: &mut Hand<u64>, tag: u32) -> bool
    requires { IsHandOf pool.now hand.old }
    ensures { IsHandOf pool.now hand.new }
{
    let mut bits = [0u64; MAX_TAGS / 64];
    let busy = pool.busy(hand, &mut bits);
    let ordinary = pool.show(hand, Kind::Ordinary);
    let reserved = pool.show(hand, Kind::Reserved);
    busy >= 1
        && bits[(tag as usize / 64).min(MAX_TAGS / 64 - 1)] >> (tag & 63) & 1 == 1
        && ordinary.busy <= ordinary.depth
        && reserved.busy <= reserved.depth
        && has(pool, hand, tag)
}

fn busy(pool: &Pool<u64>, hand: &mut Hand<u64>) -> Answer
    requires { IsHandOf pool.now hand.old }
    ensures { IsHandOf pool.now hand.new }
{
    let mut bits = [u64::MAX; MAX_TAGS / 64];
    let count = pool.busy(hand, &mut bits);
    Answer::Busy(count, bits[0], bits[1])
}

fn peek_busy(pool: &Pool<u64>) -> Answer {
    let mut bits = [u64::MAX; MAX_TAGS / 64];
    let count = pool.peek_busy(&mut bits);
    Answer::Busy(count, bits[0], bits[1])
}

fn dump(pool: &Pool<u64>, hand: &mut Hand<u64>, kind: Kind) -> Answer
    requires { IsHandOf pool.now hand.old }
    ensures { IsHandOf pool.now hand.new }
{
    let mut bytes = [0xaa; MAX_TAGS / 8];
    let count = pool.dump(hand, kind, &mut bytes);
    Answer::Dumped(count, bytes[0], bytes[1], bytes[2])
}
