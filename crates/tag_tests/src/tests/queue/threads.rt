//! Hands on threads of their own. These tests show that a blocked get is woken.
use crate::tests::calls::Call;
use crate::tests::jobs::{Job, Plan};
use crate::tests::queue::stages::queue;
use crate::tests::stage::Stage;
use crate::tests::tally::Tally;
use crate::tests::threads::{
    everything, expect_all_taken, expect_balance, gets, meeting, one_clear, played,
};
use crate::tests::totals::totals;
use std::process::Abort;
use std::sync::Wait;
use std::sync::atomic::Ordering::SeqCst;
use std::test::*;
use std::thread::Threads;
use tag_queue::QueueTotals;

/// Opens a queue for this many hands, has all of them play at once, and gathers them.
fn played_on_queue<R: AllocGlobal + Wait + Threads + Sync>(
    rt: &R,
    depth: u32,
    hands: u32,
    plan: Plan,
) -> Result<(Tally, QueueTotals), Fail> {
    let tally = Tally::new(rt.alloc(), depth)?;
    let stage = Stage::of_queue(rt.alloc(), queue(depth, hands))?;
    let sums = played(rt, stage, &tally, plan).close_queue()?;
    Ok((tally, sums))
}

/// Checks that the totals are those that the threads saw, also of the wakeups, and that nobody waits.
fn expect_all_woken<R: Abort>(rt: &R, tally: &Tally, sums: QueueTotals) {
    expect_balance(rt, tally, sums.tags);
    let told = tally.told.load(SeqCst);
    assert_eq!(rt; (sums.groups.issued, sums.groups.used), (told, told));
    assert_eq!(rt; (sums.groups.granted, sums.groups.waiting), (0, 0));
}

#[test]
fn a_slot_of_a_queue_names_its_holder_among_nine_threads(rt: HostRuntime) -> Result<(), Fail> {
    let calls = [
        Call::Take(0),
        Call::WaitInVain,
        Call::GetBatch(3),
        Call::GetBatch(3),
        Call::GetShallow(8),
        Call::Get,
        Call::Get,
        Call::GetBlocking,
    ];
    let (tally, sums) = played_on_queue(&rt, 16, 9, everything(calls, 10_000))?;
    expect_all_woken(&rt, &tally, sums);
    expect_all_taken(&rt, &tally);
    Ok(())
}

#[test]
fn four_hands_balance_beside_one_that_waits(rt: HostRuntime) -> Result<(), Fail> {
    let (tally, sums) = played_on_queue(&rt, 3, 5, gets(Call::Get, 4, 10_000))?;
    expect_all_woken(&rt, &tally, sums);
    Ok(())
}

#[test]
fn a_blocked_get_takes_the_tag_that_another_clears(rt: HostRuntime) -> Result<(), Fail> {
    let plan = Plan {
        job: Job::PassOn,
        workers: 1,
        rounds: 1,
    };
    let (tally, sums) = played_on_queue(&rt, 1, 2, plan)?;
    assert_eq!(rt; tally.wrong.load(SeqCst), 0);
    assert_eq!(rt; sums.tags, totals(2, 1, 1, 0));
    assert_eq!(rt; (sums.groups.granted, sums.groups.waiting), (0, 0));
    Ok(())
}

#[test]
fn one_clear_is_enough_for_one_waiter(rt: HostRuntime) -> Result<(), Fail> {
    let (tally, sums) = played_on_queue(&rt, 1, 2, one_clear(Call::Get, Call::GetBlocking))?;
    expect_all_woken(&rt, &tally, sums);
    assert_eq!(rt; sums.tags, totals(20_000, 20_000, 0, 0));
    Ok(())
}

#[test]
fn as_many_hands_as_tags_meet(rt: HostRuntime) -> Result<(), Fail> {
    let (tally, sums) = played_on_queue(&rt, 3, 3, meeting(3))?;
    expect_all_woken(&rt, &tally, sums);
    assert_eq!(rt; sums.tags.got, 6_000);
    Ok(())
}
