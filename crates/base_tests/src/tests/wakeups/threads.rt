//! Threads that wait and wake. Only these tests show that a sleeper is woken: no clause says so.
ghost use Rattle.std.specs.Prelude.{◌≡◌, ◌≤◌, All, None, IfSome};
ghost use Rattle.wake_book.specs.Groups.{IsWaiterOf, standing_of};

use crate::tests::wakeups::groups::{close, next_waiter};
use crate::tests::wakeups::rings::wake;
use std::sync::Wait;
use std::sync::atomic::AtomicU64;
use std::sync::atomic::Ordering::SeqCst;
use std::test::Fail;
use std::thread;
use wake_book::{GroupTotals, Groups, Left, Waiter};

/// Rounds of two threads, one that sleeps and one that wakes it.
const ROUNDS: u32 = 10_000;

/// Threads that wait in the long run, and as many that wake them.
const WAITERS: usize = 8;

/// Rounds of each thread that waits in the long run.
const LONG_ROUNDS: u32 = 20_000;

/// Enters, sleeps and leaves that many times, and returns how often it was woken.
fn sleep_often<R: Wait>(rt: &R, groups: &Groups, waiter: &mut Waiter, rounds: u32) -> u64
    requires groups { IsWaiterOf groups.now waiter.old }
    requires out { standing_of waiter.old ≡ None }
    ensures groups { IsWaiterOf groups.now waiter.new × (standing_of waiter.new ≡ None) }
{
    let mut woken = 0u64;
    for _ in 0..rounds {
        groups.enter(waiter);
        let key = groups.announce(waiter, &());
        groups.sleep(rt, waiter, key);
        if groups.leave(rt, waiter) == Left::Woken {
            woken += 1;
        }
    }
    woken
}

/// Wakes one waiter at a time, that many times.
fn wake_often<R: Wait>(rt: &R, groups: &Groups, waiter: &mut Waiter, rounds: u32)
    requires groups { IsWaiterOf groups.now waiter.old }
    ensures groups { IsWaiterOf groups.now waiter.new }
{
    for _ in 0..rounds {
        for _ in rt.forever() {
            if wake(groups, waiter, 1) == 1 {
                break;
            }
        }
    }
}

#[test]
fn each_sleeper_is_woken(rt: HostRuntime) -> Result<(), Fail> {
    let (groups, mut waiters) = Groups::open(rt.alloc(), 2)?;
    let (Some(mut second), Some(mut first)) = (
        next_waiter(&groups, &mut waiters),
        next_waiter(&groups, &mut waiters),
    ) else {
        return Err(Fail::new("fewer than two waiters"));
    };
    let (woken, _) = thread::join(
        &rt,
        || sleep_often(&rt, &groups, &mut first, ROUNDS),
        || wake_often(&rt, &groups, &mut second, ROUNDS),
    );
    assert_eq!(rt; woken, ROUNDS as u64);
    Ok(())
}

/// What the threads of the long run counted.
#[derive(Drop)]
struct Tally {
    /// Waiting threads that have finished.
    finished: AtomicU64,
    /// Waiters moved to granted: the sum of what the walks returned.
    issued: AtomicU64,
    /// Grants used: how often `leave` returned `Woken`.
    used: AtomicU64,
}

/// The first `WAITERS` threads wait; the others wake them until all of those have finished.
fn wait_or_wake<R: Wait>(rt: &R, groups: &Groups, waiter: &mut Waiter, tally: &Tally, number: usize)
    requires groups { IsWaiterOf groups.now waiter.old }
    requires out { standing_of waiter.old ≡ None }
    ensures groups { IsWaiterOf groups.now waiter.new }
{
    if number < WAITERS {
        let woken = sleep_often(rt, groups, waiter, LONG_ROUNDS);
        tally.used.fetch_add(woken, SeqCst);
        tally.finished.fetch_add(1, SeqCst);
        return;
    }
    for _ in rt.forever() {
        if tally.finished.load(SeqCst) == WAITERS as u64 {
            break;
        }
        let moved = wake(groups, waiter, 8);
        tally.issued.fetch_add(moved as u64, SeqCst);
    }
}

#[test]
fn grants_balance_among_sixteen_threads(rt: HostRuntime) -> Result<(), Fail> {
    let (groups, mut waiters) = Groups::open(rt.alloc(), 16)?;
    let tally = Tally {
        finished: AtomicU64::new(0),
        issued: AtomicU64::new(0),
        used: AtomicU64::new(0),
    };
    thread::for_each_mut(
        &rt,
        waiters.as_mut_slice(),
        16,
        &|number, waiter| { wait_or_wake(&rt, &groups, waiter, &tally, number) },
    );
    let (issued, used) = (tally.issued.load(SeqCst), tally.used.load(SeqCst));
    assert!(rt; issued == used);
    assert_eq!(rt;
        close(groups, waiters)?,
        GroupTotals {
            issued,
            used,
            granted: 0,
            waiting: 0
        }
    );
    Ok(())
}
