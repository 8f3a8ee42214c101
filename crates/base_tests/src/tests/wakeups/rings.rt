//! Rings: that each wakes whom it is for, with and without grants. No clause says so.
ghost use Rattle.std.specs.Prelude.{◌≡◌, ◌≤◌, None};
ghost use Rattle.wake_book.specs.Groups.{IsWaiterOf, StandsAsBefore, standing_of};

use crate::tests::wakeups::groups::{close, totals};
use crate::tests::wakeups::sleeps::hold_until;
use std::process::Abort;
use std::sync::Wait;
use std::sync::atomic::AtomicU64;
use std::sync::atomic::Ordering::SeqCst;
use std::test::Fail;
use std::thread;
use std::time::Clock;
use wake_book::{Groups, Waiter};

/// Rounds in each of which two threads sleep in one group and a third wakes both.
const ROUNDS: u64 = 1000;

/// How often the third thread yields before it wakes the two, so that mostly both are asleep.
const YIELDS: u32 = 20;

/// Grants up to `nr` waiters a wakeup, 1 to 8, rings for them, and returns how many there were.
pub(crate) fn wake(groups: &Groups, waiter: &mut Waiter, nr: u32) -> u32
    requires groups { IsWaiterOf groups.now waiter.old }
    requires within { (1 ≤ nr) × (nr ≤ 8) }
    ensures { IsWaiterOf groups.now waiter.new × StandsAsBefore waiter.old waiter.new }
{
    let grants = groups.walk(waiter, nr);
    groups.ring(waiter, grants);
    grants.woken
}

/// How far the three threads have come.
#[derive(Drop)]
struct Tally {
    /// Sleeps that the two threads have announced.
    announced: AtomicU64,
    /// Of these, those that have ended.
    ended: AtomicU64,
    /// Rounds in which the third thread has woken both.
    rounds: AtomicU64,
}

/// Sleeps once in each round.
fn sleep_in_rounds<R: Abort + Clock + Wait>(
    rt: &R,
    groups: &Groups,
    waiter: &mut Waiter,
    tally: &Tally,
)
    requires groups { IsWaiterOf groups.now waiter.old }
    requires out { standing_of waiter.old ≡ None }
    ensures { IsWaiterOf groups.now waiter.new }
{
    for round in 0..ROUNDS {
        groups.enter(waiter);
        let key = groups.announce(waiter, &());
        tally.announced.fetch_add(1, SeqCst);
        groups.sleep(rt, waiter, key);
        groups.leave(rt, waiter);
        tally.ended.fetch_add(1, SeqCst);
        hold_until(rt, &tally.rounds, round + 1);
    }
}

/// Wakes two sleepers in each round, by a nudge or by grants.
fn wake_in_rounds<R: Abort + Clock>(
    rt: &R,
    groups: &Groups,
    waiter: &mut Waiter,
    tally: &Tally,
    nudges: bool,
)
    requires groups { IsWaiterOf groups.now waiter.old }
    ensures { IsWaiterOf groups.now waiter.new }
{
    for round in 0..ROUNDS {
        hold_until(rt, &tally.announced, 2 * round + 2);
        for _ in 0..YIELDS {
            thread::yield_now();
        }
        wake_two(groups, waiter, nudges);
        hold_until(rt, &tally.ended, 2 * round + 2);
        tally.rounds.fetch_add(1, SeqCst);
    }
}

fn wake_two(groups: &Groups, waiter: &mut Waiter, nudges: bool)
    requires groups { IsWaiterOf groups.now waiter.old }
    ensures { IsWaiterOf groups.now waiter.new }
{
    if nudges {
        groups.nudge(waiter, 2);
    } else {
        wake(groups, waiter, 2);
    }
}

fn sleep_or_wake<R: Abort + Clock + Wait>(
    rt: &R,
    groups: &Groups,
    waiter: &mut Waiter,
    tally: &Tally,
    number: usize,
    nudges: bool,
)
    requires groups { IsWaiterOf groups.now waiter.old }
    requires out { standing_of waiter.old ≡ None }
    ensures { IsWaiterOf groups.now waiter.new }
{
    if number < 2 {
        sleep_in_rounds(rt, groups, waiter, tally);
    } else {
        wake_in_rounds(rt, groups, waiter, tally, nudges);
    }
}

#[test]
fn a_nudge_wakes_as_many_threads_as_it_is_for(rt: HostRuntime) -> Result<(), Fail> {
    let (groups, mut waiters) = Groups::open(rt.alloc(), 3)?;
    let tally = new_tally();
    thread::for_each_mut(
        &rt,
        waiters.as_mut_slice(),
        3,
        &|number, waiter| { sleep_or_wake(&rt, &groups, waiter, &tally, number, true) },
    );
    assert_eq!(rt; close(groups, waiters)?, totals(0, 0, 0, 0));
    Ok(())
}

#[test]
fn a_ring_wakes_as_many_threads_as_there_are_grants(rt: HostRuntime) -> Result<(), Fail> {
    let (groups, mut waiters) = Groups::open(rt.alloc(), 3)?;
    let tally = new_tally();
    thread::for_each_mut(
        &rt,
        waiters.as_mut_slice(),
        3,
        &|number, waiter| { sleep_or_wake(&rt, &groups, waiter, &tally, number, false) },
    );
    assert_eq!(rt;
        close(groups, waiters)?,
        totals(2 * ROUNDS, 2 * ROUNDS, 0, 0)
    );
    Ok(())
}

fn new_tally() -> Tally {
    Tally {
        announced: AtomicU64::new(0),
        ended: AtomicU64::new(0),
        rounds: AtomicU64::new(0),
    }
}
