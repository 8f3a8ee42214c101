//! The wait groups as one thread sees them.
ghost use Rattle.std.specs.Prelude.{◌≡◌, All, IfSome, None};
ghost use Rattle.wake_book.specs.Groups.{IsWaiterOf, IsNew};

use crate::tests::wakeups::rings::wake;
use std::test::Fail;
use step_ledger::{GatherCause, Numbered};
use wake_book::Left::{Unwoken, Woken};
use wake_book::{BookFault, GroupTotals, Groups, Waiter};

pub(crate) fn next_waiter(groups: &Groups, waiters: &mut Vec<Waiter>) -> Option<Waiter>
    requires { All (IsWaiterOf groups.now) waiters.old.items × All IsNew waiters.old.items }
    ensures kept { All (IsWaiterOf groups.now) waiters.new.items × All IsNew waiters.new.items }
    ensures next { IfSome result (IsWaiterOf groups.now) × IfSome result IsNew }
{
    waiters.pop()
}

pub(crate) fn put_back(
    groups: &Groups,
    waiters: &mut Vec<Waiter>,
    waiter: Waiter,
) -> Result<(), Fail>
    requires { All (IsWaiterOf groups.now) waiters.old.items × IsWaiterOf groups.now waiter }
    ensures { All (IsWaiterOf groups.now) waiters.new.items }
{
    waiters.push(waiter)?;
    Ok(())
}

/// Wakeups issued, used and granted, and waiters that wait.
pub(crate) fn totals(issued: u64, used: u64, granted: u64, waiting: u64) -> GroupTotals {
    GroupTotals {
        issued,
        used,
        granted,
        waiting,
    }
}

pub(crate) fn close(groups: Groups, waiters: Vec<Waiter>) -> Result<GroupTotals, Fail>
    requires { All (IsWaiterOf groups) waiters.items }
{
    match Groups::gather(groups, waiters) {
        Ok(totals) => Ok(totals),
        Err(_) => Err(Fail::new("a waiter is missing")),
    }
}

#[test]
fn a_grant_is_used_once(rt: HostRuntime) -> Result<(), Fail> {
    let (groups, mut waiters) = Groups::open(rt.alloc(), 2)?;
    let (Some(mut second), Some(mut first)) = (
        next_waiter(&groups, &mut waiters),
        next_waiter(&groups, &mut waiters),
    ) else {
        return Err(Fail::new("fewer than two waiters"));
    };
    let entered = [groups.enter(&mut first), groups.enter(&mut second)];
    let standing = Groups::standing(&second);
    let active = groups.active(&mut first);
    let woken = wake(&groups, &mut first, 1);
    let index = groups.index(&mut first);
    assert_eq!(rt;
        (entered, standing, active, woken, index),
        ([0, 0], Some(0), 2, 1, 1)
    );
    let left = [
        groups.leave(&rt, &mut first),
        groups.leave(&rt, &mut second),
    ];
    let next = groups.enter(&mut second);
    let last = groups.leave(&rt, &mut second);
    put_back(&groups, &mut waiters, second)?;
    put_back(&groups, &mut waiters, first)?;
    assert_eq!(rt;
        (left, next, last, close(groups, waiters)?),
        ([Woken, Unwoken], 1, Unwoken, totals(1, 1, 0, 0))
    );
    Ok(())
}

#[test]
fn who_stands_is_gathered_too(rt: HostRuntime) -> Result<(), Fail> {
    let (groups, mut waiters) = Groups::open(rt.alloc(), 3)?;
    let (Some(mut second), Some(mut first), Some(zeroth)) = (
        next_waiter(&groups, &mut waiters),
        next_waiter(&groups, &mut waiters),
        next_waiter(&groups, &mut waiters),
    ) else {
        return Err(Fail::new("fewer than three waiters"));
    };
    groups.enter(&mut second);
    groups.enter(&mut first);
    let woken = wake(&groups, &mut second, 1);
    put_back(&groups, &mut waiters, second)?;
    put_back(&groups, &mut waiters, zeroth)?;
    let Err(fault) = Groups::gather(groups, waiters) else {
        return Err(Fail::new("gathered without the first"));
    };
    let cause = fault.cause;
    let groups = fault.groups;
    let mut waiters = fault.waiters;
    put_back(&groups, &mut waiters, first)?;
    assert_eq!(rt;
        (woken, cause, close(groups, waiters)?),
        (1, GatherCause::Missing(1), totals(1, 0, 1, 1))
    );
    Ok(())
}

#[test]
fn waiters_come_together_one_after_another(rt: HostRuntime) -> Result<(), Fail> {
    let (groups, mut waiters) = Groups::open(rt.alloc(), 2)?;
    let (Some(mut second), Some(first)) = (
        next_waiter(&groups, &mut waiters),
        next_waiter(&groups, &mut waiters),
    ) else {
        return Err(Fail::new("fewer than two waiters"));
    };
    groups.enter(&mut second);
    let woken = wake(&groups, &mut second, 8);
    if groups.waiters() != 2 || first.number() != 0 || second.number() != 1 {
        return Err(Fail::new("the waiters are numbered otherwise"));
    }
    let mut all = groups.start_gathering(second);
    all.add(&groups, first);
    assert_eq!(rt; (woken, groups.finish(all)), (1, totals(1, 0, 1, 0)));
    Ok(())
}

#[test]
fn too_many_waiters_are_refused(rt: HostRuntime) {
    for waiters in [0, 65] {
        let refused = Groups::open(rt.alloc(), waiters).err();
        assert!(rt; refused == Some(BookFault::Count), "for {waiters}");
    }
}
