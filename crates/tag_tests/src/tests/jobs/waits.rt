//! Threads that wait, and one that wakes another.
use crate::tests::allocator::TagAllocator;
use crate::tests::answers::Answer;
use crate::tests::calls::Call;
use crate::tests::jobs::wait_until;
use crate::tests::tally::Tally;
use std::sync::Wait;
use std::sync::atomic::AtomicU64;
use std::sync::atomic::Ordering::SeqCst;
use std::thread;

/// How often a thread yields before it takes another for asleep: some seconds.
const PATIENCE: u32 = 1 << 24;

/// Begins and ends a wait until the workers have finished.
pub(crate) fn wait_on_and_off<R: Wait, T: TagAllocator>(
    rt: &R,
    tags: &T,
    caller: &mut T::Caller,
    tally: &Tally,
    workers: usize,
)
    requires { T.is_own tags.now caller.old }
    ensures { T.is_own tags.now caller.new }
{
    for _ in rt.forever() {
        if tally.finished.load(SeqCst) == workers as u64 {
            break;
        }
        tally.check(tags.act(rt, caller, Call::WaitInVain).is_granted());
    }
}

/// Waits for tag 0, once it is taken.
pub(crate) fn wait_for_a_tag<R: Wait, T: TagAllocator>(
    rt: &R,
    tags: &T,
    caller: &mut T::Caller,
    tally: &Tally,
)
    requires { T.is_own tags.now caller.old }
    ensures { T.is_own tags.now caller.new }
{
    wait_until(rt, &tally.won, 1);
    tally.check(tags.act(rt, caller, Call::GetBlocking) == Answer::Tag(0));
}

/// Gets tag 0, and clears it once somebody waits.
pub(crate) fn clear_for_a_waiter<R: Wait, T: TagAllocator>(
    rt: &R,
    tags: &T,
    caller: &mut T::Caller,
    tally: &Tally,
)
    requires { T.is_own tags.now caller.old }
    ensures { T.is_own tags.now caller.new }
{
    tally.check(tags.act(rt, caller, Call::Get) == Answer::Tag(0));
    tally.wins(0);
    for _ in rt.forever() {
        if tags.act(rt, caller, Call::FindsWaiters) == Answer::Waiters(true) {
            break;
        }
    }
    tally.cleared(1, tags.act(rt, caller, Call::Clear(0)));
}

/// Gets tag 0 in each round, and clears it a little later, before or after the other thread has begun to wait. A
/// round in which the other thread doesn't come to the tag counts as wrong; a second clear then wakes it.
pub(crate) fn clear_once<R: Wait, T: TagAllocator>(
    rt: &R,
    tags: &T,
    caller: &mut T::Caller,
    tally: &Tally,
    get: Call,
    rounds: u32,
)
    requires { T.is_own tags.now caller.old }
    ensures { T.is_own tags.now caller.new }
{
    let mut wins = 0u64;
    for round in 0..rounds {
        wins = wins.wrapping_add(2);
        tally.check(tags.act(rt, caller, get) == Answer::Tag(0));
        tally.wins(0);
        for _ in 0..round % 512 {
            tally.check(tally.won.load(SeqCst) < wins);
        }
        tally.goes(0);
        tally.cleared(1, tags.act(rt, caller, Call::Clear(0)));
        if !comes_to(&tally.won, wins) {
            tally.check(false);
            tags.act(rt, caller, get);
            tags.act(rt, caller, Call::Clear(0));
        }
        wait_until(rt, &tally.back, wins);
    }
}

/// Waits for tag 0 in each round, once the other thread has it, and clears it.
pub(crate) fn wait_for_one_clear<R: Wait, T: TagAllocator>(
    rt: &R,
    tags: &T,
    caller: &mut T::Caller,
    tally: &Tally,
    wait: Call,
    rounds: u32,
)
    requires { T.is_own tags.now caller.old }
    ensures { T.is_own tags.now caller.new }
{
    let mut wins = 1u64;
    for _ in 0..rounds {
        wait_until(rt, &tally.won, wins);
        tally.check(tags.act(rt, caller, wait) == Answer::Tag(0));
        tally.wins(0);
        tally.goes(0);
        tally.cleared(1, tags.act(rt, caller, Call::Clear(0)));
        wins = wins.wrapping_add(2);
    }
}

/// Waits until a count has come to this number, but not for ever.
fn comes_to(count: &AtomicU64, number: u64) -> bool {
    for _ in 0..PATIENCE {
        if count.load(SeqCst) >= number {
            return true;
        }
        thread::yield_now();
    }
    false
}
