//! Sleeps: what ends each, and that nothing else does. No clause says so. A sleep that is lost ends the run.
ghost use Rattle.std.specs.Prelude.{◌≡◌, ◌<◌, None};
ghost use Rattle.wake_book.specs.Groups.{IsWaiterOf, standing_of};

use crate::tests::wakeups::groups::next_waiter;
use std::process::Abort;
use std::sync::Wait;
use std::sync::atomic::AtomicU64;
use std::sync::atomic::Ordering::SeqCst;
use std::test::Fail;
use std::thread;
use std::time::{Clock, Duration};
use wake_book::{Groups, Left, NO_GRANTS, Waiter};

/// Sleeps of a test, one in each group.
const SLEEPS: u64 = 8;

/// How often a thread that holds itself yields, before it sleeps for a millisecond at a time.
const YIELDS: u64 = 1000;

/// For how many milliseconds a thread holds itself at most.
const LIMIT: u64 = 10_000;

/// How many milliseconds a sleep has to last that nothing ends.
const REST: u64 = 20;

/// Holds the caller until the count is as high as this, and ends the run if that takes longer than `LIMIT`.
pub(crate) fn hold_until<R: Abort + Clock>(rt: &R, count: &AtomicU64, least: u64) {
    for turn in 0..YIELDS + LIMIT {
        if count.load(SeqCst) >= least {
            return;
        }
        if turn < YIELDS {
            thread::yield_now();
        } else {
            thread::sleep(rt, Duration::from_millis(1));
        }
    }
    let found = count.load(SeqCst);
    panic!(rt; "held for too long: the count is {found} and not {least}");
}

/// What comes between the announcement of a sleep and the sleep.
#[derive(Clone, Copy, Drop)]
enum Between {
    /// A ring for a grant in the sleeper's group.
    Ring,
    /// A nudge of one sleeper in each group.
    Nudge,
    /// A grant to the sleeper, without a ring.
    Grant,
}

/// Lets the other waiter ring, nudge or grant.
fn intervene(groups: &Groups, waiter: &mut Waiter, group: usize, between: Between)
    requires groups { IsWaiterOf groups.now waiter.old }
    requires within { group < 8 }
    ensures { IsWaiterOf groups.now waiter.new }
{
    match between {
        Between::Ring => {
            let mut grants = NO_GRANTS;
            grants.in_group[group] = 1;
            groups.ring(waiter, grants);
        }
        Between::Nudge => groups.nudge(waiter, 1),
        Between::Grant => {
            groups.walk(waiter, 1);
        }
    }
}

/// Announces a sleep in the next group, lets the other waiter intervene, and sleeps. Returns how the sleeper left.
fn sleep_after<R: Wait>(
    rt: &R,
    groups: &Groups,
    sleeper: &mut Waiter,
    other: &mut Waiter,
    between: Between,
) -> Left
    requires groups { IsWaiterOf groups.now sleeper.old × IsWaiterOf groups.now other.old }
    requires out { standing_of sleeper.old ≡ None }
    ensures groups { IsWaiterOf groups.now sleeper.new × IsWaiterOf groups.now other.new }
    ensures out { standing_of sleeper.new ≡ None }
{
    let group = groups.enter(sleeper) as usize;
    let key = groups.announce(sleeper, &());
    intervene(groups, other, group, between);
    groups.sleep(rt, sleeper, key);
    groups.leave(rt, sleeper)
}

/// Sleeps so once in each group.
fn sleep_in_each_group<R: Abort + Wait>(
    rt: &R,
    groups: &Groups,
    sleeper: &mut Waiter,
    other: &mut Waiter,
    between: Between,
    ended: &AtomicU64,
)
    requires groups { IsWaiterOf groups.now sleeper.old × IsWaiterOf groups.now other.old }
    requires out { standing_of sleeper.old ≡ None }
{
    for group in 0..SLEEPS {
        let left = sleep_after(rt, groups, sleeper, other, between);
        let granted = matches!(between, Between::Grant);
        assert!(rt; (left == Left::Woken) == granted, "in group {group}");
        ended.fetch_add(1, SeqCst);
    }
}

#[test]
fn a_ring_ends_a_sleep_that_was_announced(rt: HostRuntime) -> Result<(), Fail> {
    let (groups, mut waiters) = Groups::open(rt.alloc(), 2)?;
    let (Some(mut second), Some(mut first)) = (
        next_waiter(&groups, &mut waiters),
        next_waiter(&groups, &mut waiters),
    ) else {
        return Err(Fail::new("fewer than two waiters"));
    };
    let ended = AtomicU64::new(0);
    thread::join(
        &rt,
        || sleep_in_each_group(&rt, &groups, &mut first, &mut second, Between::Ring, &ended),
        || hold_until(&rt, &ended, SLEEPS),
    );
    Ok(())
}

#[test]
fn a_nudge_ends_a_sleep_that_was_announced(rt: HostRuntime) -> Result<(), Fail> {
    let (groups, mut waiters) = Groups::open(rt.alloc(), 2)?;
    let (Some(mut second), Some(mut first)) = (
        next_waiter(&groups, &mut waiters),
        next_waiter(&groups, &mut waiters),
    ) else {
        return Err(Fail::new("fewer than two waiters"));
    };
    let ended = AtomicU64::new(0);
    thread::join(
        &rt,
        || sleep_in_each_group(
            &rt,
            &groups,
            &mut first,
            &mut second,
            Between::Nudge,
            &ended,
        ),
        || hold_until(&rt, &ended, SLEEPS),
    );
    Ok(())
}

#[test]
fn nobody_sleeps_beside_a_grant(rt: HostRuntime) -> Result<(), Fail> {
    let (groups, mut waiters) = Groups::open(rt.alloc(), 2)?;
    let (Some(mut second), Some(mut first)) = (
        next_waiter(&groups, &mut waiters),
        next_waiter(&groups, &mut waiters),
    ) else {
        return Err(Fail::new("fewer than two waiters"));
    };
    let ended = AtomicU64::new(0);
    thread::join(
        &rt,
        || sleep_in_each_group(
            &rt,
            &groups,
            &mut first,
            &mut second,
            Between::Grant,
            &ended,
        ),
        || hold_until(&rt, &ended, SLEEPS),
    );
    Ok(())
}

/// How far two threads have come.
#[derive(Drop)]
struct Tally {
    /// Sleeps announced.
    announced: AtomicU64,
    /// Of these, those that have ended.
    ended: AtomicU64,
    /// Nudges that are over.
    nudged: AtomicU64,
}

/// Sleeps once in each group. A nudge goes through the groups in order, so the next sleep is announced only when it is
/// over: until then it could end that one too.
fn sleep_on<R: Abort + Clock + Wait>(rt: &R, groups: &Groups, waiter: &mut Waiter, tally: &Tally)
    requires groups { IsWaiterOf groups.now waiter.old }
    requires out { standing_of waiter.old ≡ None }
{
    for sleep in 0..SLEEPS {
        hold_until(rt, &tally.nudged, sleep);
        groups.enter(waiter);
        let key = groups.announce(waiter, &());
        tally.announced.fetch_add(1, SeqCst);
        groups.sleep(rt, waiter, key);
        tally.ended.fetch_add(1, SeqCst);
        groups.leave(rt, waiter);
    }
}

/// Sees that each sleep lasts, and then ends it.
fn end_each<R: Abort + Clock>(rt: &R, groups: &Groups, waiter: &mut Waiter, tally: &Tally)
    requires groups { IsWaiterOf groups.now waiter.old }
{
    for sleep in 0..SLEEPS {
        hold_until(rt, &tally.announced, sleep + 1);
        thread::sleep(rt, Duration::from_millis(REST));
        let ended = tally.ended.load(SeqCst);
        assert!(rt; ended == sleep, "nobody ended sleep {sleep}");
        groups.nudge(waiter, 1);
        tally.nudged.fetch_add(1, SeqCst);
        hold_until(rt, &tally.ended, sleep + 1);
    }
}

#[test]
fn threads_sleep_until_somebody_ends_it(rt: HostRuntime) -> Result<(), Fail> {
    let (groups, mut waiters) = Groups::open(rt.alloc(), 2)?;
    let (Some(mut second), Some(mut first)) = (
        next_waiter(&groups, &mut waiters),
        next_waiter(&groups, &mut waiters),
    ) else {
        return Err(Fail::new("fewer than two waiters"));
    };
    let tally = Tally {
        announced: AtomicU64::new(0),
        ended: AtomicU64::new(0),
        nudged: AtomicU64::new(0),
    };
    thread::join(
        &rt,
        || sleep_on(&rt, &groups, &mut first, &tally),
        || end_each(&rt, &groups, &mut second, &tally),
    );
    Ok(())
}
