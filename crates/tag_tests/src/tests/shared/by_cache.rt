//! The calls of a hand that has a cache.
ghost use Rattle.std.specs.Prelude.{IsTrue};
ghost use Rattle.tag_cache.specs.Caches.{IsCacheOf, Holds};

use crate::tests::answers::{Answer, answered, got, got_batch, got_one, shown, waited, woken};
use crate::tests::calls::Call;
use crate::tests::shared::by_hand::MAX_TAGS;
use std::sync::Wait;
use tag_cache::Cache;
use tag_core::MOST_NOTE;
use tag_pool::{Kind, Pool, TagFault, Turn, Waiter, Woken};

/// Makes a call.
pub(crate) fn act<W: Wait>(rt: &W, pool: &Pool<u64>, cache: &mut Cache<u64>, call: Call) -> Answer
    requires { IsCacheOf pool.now cache.old }
    ensures { IsCacheOf pool.now cache.new }
{
    match call {
        Call::Get => answered(cache.get(pool).map(got)),
        Call::GetReserved => answered(cache.get_reserved(pool).map(got)),
        Call::GetShallow(depth) => answered(cache.get_shallow(pool, depth).map(got)),
        Call::GetBatch(count) => answered(cache.get_batch(pool, count).map(got_batch)),
        Call::GetExactly(tag) => answered(cache.get_exactly(pool, tag).map(got)),
        Call::GetBlocking => answered(cache.get_blocking(rt, pool).map(got_one)),
        Call::GetReservedBlocking => answered(cache.get_reserved_blocking(rt, pool).map(got_one)),
        Call::Clear(tag) => answered(cache.clear(pool, tag).map(woken)),
        Call::ClearBoth(one, other) => {
            answered(cache.clear_batch(pool, &[one, other]).map(woken))
        }
        Call::ClearMask(first, mask) => answered(cache.clear_mask(pool, first, mask).map(woken)),
        Call::Read(tag) => answered(cache.read(pool, tag).map(Answer::Value)),
        Call::Write(tag, new) => answered(cache.write(pool, tag, new).map(Answer::Value)),
        Call::Post(tag) => answered(cache.post(pool, tag).map(posted)),
        Call::PostNoted(tag, note) => post_noted(pool, cache, tag, note),
        Call::Take(tag) => answered(cache.take(pool, tag).map(|()| Answer::Done)),
        Call::ReadNote(tag) => answered(cache.read_note(pool, tag).map(Answer::Noted)),
        Call::Flush => woken(cache.flush(pool)),
        Call::Kept => kept(cache),
        _ => wait_or_look(pool, cache, call),
    }
}

/// Posts a tag with a note, if there is such a note.
fn post_noted(pool: &Pool<u64>, cache: &mut Cache<u64>, tag: u32, note: u64) -> Answer
    requires { IsCacheOf pool.now cache.old }
    ensures { IsCacheOf pool.now cache.new }
{
    if note > MOST_NOTE {
        return Answer::NoSuchCall;
    }
    answered(cache.post_noted(pool, tag, note).map(posted))
}

/// Makes a call of a wait for an ordinary tag, or another.
fn wait_or_look(pool: &Pool<u64>, cache: &mut Cache<u64>, call: Call) -> Answer
    requires { IsCacheOf pool.now cache.old }
    ensures { IsCacheOf pool.now cache.new }
{
    match call {
        Call::ListSelf(waiter) => {
            cache.list_self(pool, Kind::Ordinary, waiter, Turn::Next);
            Answer::Done
        }
        Call::ListAgain(waiter) => {
            cache.list_self(pool, Kind::Ordinary, waiter, Turn::Same);
            Answer::Done
        }
        Call::GetUp => Answer::WasTold(cache.get_up(pool, Kind::Ordinary)),
        Call::IsTold => Answer::WasTold(cache.is_told(pool, Kind::Ordinary)),
        Call::WaitOn(is_over) => wait_on(pool, cache, Kind::Ordinary, is_over),
        Call::SeeTo(freed) => woken(cache.wake(pool, Kind::Ordinary, freed)),
        Call::SeeToAll => woken(cache.wake_next(pool, Kind::Ordinary)),
        _ => wait_for_reserved(pool, cache, call),
    }
}

/// Makes a call of a wait for a reserved tag, or one that looks.
fn wait_for_reserved(pool: &Pool<u64>, cache: &mut Cache<u64>, call: Call) -> Answer
    requires { IsCacheOf pool.now cache.old }
    ensures { IsCacheOf pool.now cache.new }
{
    match call {
        Call::ListReserved(waiter) => {
            cache.list_self(pool, Kind::Reserved, waiter, Turn::Next);
            Answer::Done
        }
        Call::GetUpReserved => Answer::WasTold(cache.get_up(pool, Kind::Reserved)),
        Call::IsToldReserved => Answer::WasTold(cache.is_told(pool, Kind::Reserved)),
        Call::WaitOnReserved(is_over) => wait_on(pool, cache, Kind::Reserved, is_over),
        Call::SeeToReserved(freed) => woken(cache.wake(pool, Kind::Reserved, freed)),
        Call::SeeToAllReserved => woken(cache.wake_next(pool, Kind::Reserved)),
        _ => look(pool, cache, call),
    }
}

/// Makes a call that looks.
fn look(pool: &Pool<u64>, cache: &mut Cache<u64>, call: Call) -> Answer
    requires { IsCacheOf pool.now cache.old }
    ensures { IsCacheOf pool.now cache.new }
{
    match call {
        Call::Place => {
            cache.place(pool);
            Answer::Done
        }
        Call::Holds(tag) => Answer::Held(has(pool, cache, tag)),
        Call::Show(kind) => shown(cache.show(pool, kind)),
        Call::Busy => busy(pool, cache),
        Call::Dump(kind) => dump(pool, cache, kind),
        _ => Answer::NoSuchCall,
    }
}

/// Makes a round of a wait for a tag of this kind as a sleeper, or ends it.
fn wait_on(pool: &Pool<u64>, cache: &mut Cache<u64>, kind: Kind, is_over: bool) -> Answer
    requires { IsCacheOf pool.now cache.old }
    ensures { IsCacheOf pool.now cache.new }
{
    if !cache.can_wait(kind) {
        return Answer::CannotWait;
    }
    let (next, whom) = cache.wait_on(pool, kind, Waiter::Sleeper, is_over, Turn::Next);
    let woken = pool.wake_told(kind, whom);
    waited(next, woken)
}

/// Whom a post told, or that it is done where that is nobody, as a post by a hand is.
fn posted(whom: Woken) -> Answer {
    match woken(whom) {
        Answer::Told(0) => Answer::Done,
        told => told,
    }
}

fn kept(cache: &Cache<u64>) -> Answer {
    Answer::Keeps(
        cache.count(),
        cache.handed_out(),
        cache.taken_back(),
        cache.reused(),
    )
}

/// Returns whether the number is a tag's and the cache's user holds that tag.
pub(crate) fn has(pool: &Pool<u64>, cache: &mut Cache<u64>, tag: u32) -> bool
    requires { IsCacheOf pool.now cache.old }
    ensures own { IsCacheOf pool.now cache.new }
    ensures held { IsTrue result → Holds cache.new tag }
{
    match cache.read(pool, tag) {
        Err(TagFault::NoSuchTag) => false,
        _ => cache.holds(tag),
    }
}

fn busy(pool: &Pool<u64>, cache: &mut Cache<u64>) -> Answer
    requires { IsCacheOf pool.now cache.old }
    ensures { IsCacheOf pool.now cache.new }
{
    let mut bits = [u64::MAX; MAX_TAGS / 64];
    let count = cache.busy(pool, &mut bits);
    Answer::Busy(count, bits[0], bits[1])
}

fn dump(pool: &Pool<u64>, cache: &mut Cache<u64>, kind: Kind) -> Answer
    requires { IsCacheOf pool.now cache.old }
    ensures { IsCacheOf pool.now cache.new }
{
    let mut bytes = [0xaa; MAX_TAGS / 8];
    let count = cache.dump(pool, kind, &mut bytes);
    Answer::Dumped(count, bytes[0], bytes[1], bytes[2])
}
