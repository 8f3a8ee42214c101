//! Callers of a pool on threads of their own. That these tests end shows that nobody sleeps for ever, also where tags
//! are kept.
use crate::tests::calls::Call;
use crate::tests::jobs::{Job, Plan};
use crate::tests::shared::stages::{Setting, pool};
use crate::tests::stage::Stage;
use crate::tests::tally::Tally;
use crate::tests::threads::{
    everything, expect_all_taken, expect_balance, gets, meeting, one_clear, played,
};
use crate::tests::totals::totals;
use std::process::Abort;
use std::sync::Wait;
use std::sync::atomic::Ordering::SeqCst;
use std::test::*;
use std::thread::Threads;
use tag_pool::Totals;

/// Opens a pool, has all its callers play at once, and gathers them.
fn played_on_pool<R: AllocGlobal + Wait + Threads + Sync>(
    rt: &R,
    setting: Setting,
    plan: Plan,
) -> Result<(Tally, Totals), Fail> {
    let tally = Tally::new(rt.alloc(), setting.options.depth)?;
    let stage = played(rt, Stage::of_pool(rt.alloc(), setting)?, &tally, plan);
    let sums = stage.close()?;
    Ok((tally, sums))
}

/// Checks that nothing went wrong and all tags came back, of which the callers won no more than they were given.
fn expect_all_back<R: Abort + AllocGlobal + Wait + Threads + Sync>(
    rt: &R,
    setting: Setting,
    plan: Plan,
) -> Result<(), Fail> {
    let (tally, sums) = played_on_pool(rt, setting, plan)?;
    assert_eq!(rt; tally.wrong.load(SeqCst), 0);
    assert_eq!(rt; tally.won.load(SeqCst), tally.back.load(SeqCst));
    assert_eq!(rt; (sums.got, sums.held, sums.posted), (sums.back, 0, 0));
    assert!(rt; sums.got <= tally.won.load(SeqCst));
    Ok(())
}

#[test]
fn a_slot_names_its_holder_among_nine_threads(rt: HostRuntime) -> Result<(), Fail> {
    let calls = [
        Call::Take(0),
        Call::WaitInVain,
        Call::GetBatch(3),
        Call::GetShallow(8),
        Call::GetReserved,
        Call::GetUntil(3),
        Call::Get,
        Call::GetBlocking,
    ];
    let waits = [
        Call::Take(0),
        Call::WaitInVain,
        Call::GetReservedUntil(3),
        Call::GetReservedBlocking,
        Call::GetReserved,
        Call::GetUntil(3),
        Call::Get,
        Call::GetBlocking,
    ];
    for calls in [calls, waits] {
        let (tally, sums) = played_on_pool(&rt, pool(20, 4, 9), everything(calls, 10_000))?;
        assert_eq!(rt; tally.wrong.load(SeqCst), 0);
        assert_eq!(rt; (sums.got, sums.held, sums.posted), (sums.back, 0, 0));
        expect_all_taken(&rt, &tally);
    }
    Ok(())
}

#[test]
fn threads_sleep_for_one_tag_and_for_three(rt: HostRuntime) -> Result<(), Fail> {
    for depth in [1, 3] {
        let sleeping = gets(Call::GetBlocking, 8, 2_000);
        let (tally, sums) = played_on_pool(&rt, pool(depth, 0, 8), sleeping)?;
        expect_balance(&rt, &tally, sums);
        assert_eq!(rt; sums, totals(16_000, 16_000, 0, 0));
    }
    Ok(())
}

#[test]
fn caches_and_bare_hands_sleep_for_few_tags(rt: HostRuntime) -> Result<(), Fail> {
    for (depth, caches) in [(1, 8), (3, 8), (3, 4)] {
        let setting = pool(depth, 0, 8).with_caches(caches, 8);
        expect_all_back(&rt, setting, gets(Call::GetBlocking, 8, 2_000))?;
    }
    Ok(())
}

/// Four callers make this call and a get in each round, and clear what the get won first.
fn pairs(call: Call) -> Plan {
    Plan {
        job: Job::Pairs(call),
        workers: 4,
        rounds: 5_000,
    }
}

/// Four callers hold up to two tags each, all of which they clear.
#[test]
fn nobody_sleeps_while_caches_keep_tags(rt: HostRuntime) -> Result<(), Fail> {
    let pairs = pairs(Call::GetBlocking);
    expect_all_back(&rt, pool(3, 0, 4).with_caches(4, 8), pairs)?;
    expect_all_back(&rt, pool(3, 0, 4).with_caches(4, 8).careful(), pairs)?;
    expect_all_back(&rt, pool(3, 0, 4).with_caches(2, 8).careful(), pairs)
}

/// Who sleeps for the reserved tag keeps ordinary ones meanwhile.
#[test]
fn caches_sleep_for_a_reserved_tag(rt: HostRuntime) -> Result<(), Fail> {
    let pairs = pairs(Call::GetReservedBlocking);
    expect_all_back(&rt, pool(4, 1, 4).with_caches(4, 8), pairs)?;
    expect_all_back(&rt, pool(4, 1, 4).with_caches(2, 8).careful(), pairs)
}

#[test]
fn as_many_callers_as_tags_meet(rt: HostRuntime) -> Result<(), Fail> {
    let (tally, sums) = played_on_pool(&rt, pool(10, 2, 8), meeting(8))?;
    expect_balance(&rt, &tally, sums);
    assert_eq!(rt; sums.got, 16_000);
    expect_all_back(&rt, pool(4, 0, 4).with_caches(2, 8).careful(), meeting(4))
}

#[test]
fn one_clear_is_enough_for_one_sleeper(rt: HostRuntime) -> Result<(), Fail> {
    for (reserved, get, wait) in [
        (0, Call::Get, Call::GetBlocking),
        (1, Call::GetReserved, Call::GetReservedBlocking),
    ] {
        let (tally, sums) = played_on_pool(&rt, pool(1, reserved, 2), one_clear(get, wait))?;
        expect_balance(&rt, &tally, sums);
        assert_eq!(rt; sums, totals(20_000, 20_000, 0, 0));
    }
    Ok(())
}

/// The ordinary tag stays free all the while.
#[test]
fn threads_sleep_for_reserved_tags(rt: HostRuntime) -> Result<(), Fail> {
    for reserved in [1, 3] {
        let sleeping = gets(Call::GetReservedBlocking, 8, 2_000);
        let setting = pool(reserved + 1, reserved, 8);
        let (tally, sums) = played_on_pool(&rt, setting, sleeping)?;
        expect_balance(&rt, &tally, sums);
        assert_eq!(rt; sums, totals(16_000, 16_000, 0, 0));
    }
    Ok(())
}

/// A fifth hand begins and ends waits, and is told of tags that it does not take.
#[test]
fn sleepers_balance_beside_one_whose_waits_end(rt: HostRuntime) -> Result<(), Fail> {
    let sleeping = gets(Call::GetBlocking, 4, 5_000);
    let (tally, sums) = played_on_pool(&rt, pool(2, 0, 5), sleeping)?;
    assert_eq!(rt; tally.wrong.load(SeqCst), 0);
    assert_eq!(rt; tally.won.load(SeqCst), 20_000);
    assert_eq!(rt; (sums.got, sums.held), (sums.back, 0));
    Ok(())
}
