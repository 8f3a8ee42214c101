//! Callers on threads of their own.
ghost use Rattle.std.specs.Prelude.{All};

use crate::tests::allocator::TagAllocator;
use crate::tests::calls::Call;
use crate::tests::jobs::{Job, Plan, play};
use crate::tests::stage::Stage;
use crate::tests::tally::Tally;
use crate::tests::totals::totals;
use std::process::Abort;
use std::sync::Wait;
use std::sync::atomic::Ordering::SeqCst;
use std::test::*;
use std::thread;
use std::thread::Threads;
use tag_pool::Totals;

/// Has all callers play at once, each in a thread of its own.
fn play_all<R: Wait + Threads + Sync, T: TagAllocator + Sync>(
    rt: &R,
    tags: &T,
    callers: &mut Vec<T::Caller>,
    tally: &Tally,
    plan: Plan,
)
where
    T::Caller: Send,
    requires { All (T.is_own tags.now) callers.old.items }
    ensures { All (T.is_own tags.now) callers.new.items }
{
    let threads = callers.len();
    thread::for_each_mut(
        rt,
        callers.as_mut_slice(),
        threads.max(1),
        &|number, caller| { play(rt, tags, caller, tally, plan, number) },
    );
}

/// Has all callers of a stage play at once.
pub(crate) fn played<R: Wait + Threads + Sync, T: TagAllocator + Sync>(
    rt: &R,
    stage: Stage<T>,
    tally: &Tally,
    plan: Plan,
) -> Stage<T>
where
    T::Caller: Send,
{
    let Stage {
        tags,
        mut callers,
        away,
    } = stage;
    play_all(rt, &tags, &mut callers, tally, plan);
    Stage {
        tags,
        callers,
        away,
    }
}

/// Eight workers and a ninth thread that keeps taking and clearing tags.
pub(crate) fn everything(calls: [Call; 8], rounds: u32) -> Plan {
    Plan {
        job: Job::Everything(calls),
        workers: 8,
        rounds,
    }
}

/// So many callers make gets; any others wait on and off.
pub(crate) fn gets(call: Call, workers: usize, rounds: u32) -> Plan {
    Plan {
        job: Job::Gets(call),
        workers,
        rounds,
    }
}

/// As many workers as there are tags. A tag that a search made free, and took from nobody, must not stay beside a
/// sleeper.
pub(crate) fn meeting(workers: usize) -> Plan {
    Plan {
        job: Job::Meet(Call::GetBlocking),
        workers,
        rounds: 2_000,
    }
}

/// One thread gets a tag by the first call in each round and clears it, and the other one waits for it by the second.
pub(crate) fn one_clear(get: Call, wait: Call) -> Plan {
    Plan {
        job: Job::OneClear(get, wait),
        workers: 1,
        rounds: 10_000,
    }
}

/// Checks that nothing went wrong, that tags were won, and that the totals are those that the threads saw.
pub(crate) fn expect_balance<R: Abort>(rt: &R, tally: &Tally, sums: Totals) {
    assert_eq!(rt; tally.wrong.load(SeqCst), 0);
    assert!(rt; 0 < sums.got);
    let seen = totals(tally.won.load(SeqCst), tally.back.load(SeqCst), 0, 0);
    assert_eq!(rt; sums, seen);
}

/// Checks that tags were posted, and that each of them was taken.
pub(crate) fn expect_all_taken<R: Abort>(rt: &R, tally: &Tally) {
    assert!(rt; 0 < tally.taken.load(SeqCst));
    assert_eq!(rt; tally.taken.load(SeqCst), tally.posted.load(SeqCst));
}
