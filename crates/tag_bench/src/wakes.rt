//! The workload `wakes`: what a clear pays where nobody waits, and what a count costs alone and among threads.
ghost use Rattle.std.specs.Prelude.{◌≡◌, ◌<◌, All, OnOk};
ghost use Rattle.wake_book.specs.Book.{IsTellerOf};
ghost use Rattle.wake_book.specs.Groups.{IsWaiterOf};

use crate::measure::{Failed, RUNS, Run, Times, Watch, print_case};
use crate::options::Options;
use std::thread;
use std::thread::Threads;
use std::time::{Clock, CpuClock};
use wake_book::{Book, Groups, Teller, Waiter};

/// Completions that one charge takes.
const BATCH: u32 = 8;

/// Completions that one teller may count.
const CAP: u64 = 1 << 48;

/// Runs each case.
pub(crate) fn run<R: AllocGlobal + Threads + Sync + Print + Clock + CpuClock>(
    rt: &R,
    options: &Options,
) -> Result<(), Failed> {
    for &threads in options.threads.iter() {
        run_looks(rt, options, threads)?;
    }
    for &threads in options.threads.iter() {
        run_counts(rt, options, threads)?;
    }
    Ok(())
}

/// Each thread looks at the active count, and nobody waits.
fn run_looks<R: AllocGlobal + Threads + Sync + Print + Clock + CpuClock>(
    rt: &R,
    options: &Options,
    threads: u32,
) -> Result<(), Failed> {
    let (groups, mut waiters) = Groups::open(rt.alloc(), threads)?;
    let rounds = options.rounds;
    let times = Times {
        runs: time_looks(rt, &groups, &mut waiters, rounds)?,
        operations: u64::from(rounds),
    };
    print_case(
        rt,
        options.show,
        "wakes",
        "active",
        threads,
        times,
        format_args!("looked={rounds}"),
    )?;
    Ok(())
}

/// Each thread counts completions, and charges where a batch is due.
fn run_counts<R: AllocGlobal + Threads + Sync + Print + Clock + CpuClock>(
    rt: &R,
    options: &Options,
    threads: u32,
) -> Result<(), Failed> {
    let (book, mut tellers) = Book::open(rt.alloc(), BATCH, threads, CAP)?;
    let rounds = options.rounds;
    let times = Times {
        runs: time_counts(rt, &book, &mut tellers, rounds)?,
        operations: u64::from(rounds),
    };
    let Ok(totals) = Book::gather(book, tellers) else {
        return Err(Failed::Missing);
    };
    let counted = totals.counted / RUNS as u64;
    let whole = totals.charged / u64::from(BATCH) == totals.charges;
    let within = totals.charged <= totals.counted;
    print_case(
        rt,
        options.show,
        "wakes",
        "count",
        threads,
        times,
        format_args!("counted={counted} within={within} whole={whole}"),
    )?;
    Ok(())
}

fn time_looks<R: Threads + Sync + Clock + CpuClock>(
    rt: &R,
    groups: &Groups,
    waiters: &mut Vec<Waiter>,
    rounds: u32,
) -> Result<[Run; RUNS], Failed>
    requires { All (IsWaiterOf groups.now) waiters.old.items }
{
    let mut runs = [Run::ZERO; RUNS];
    for run in runs.iter_mut() {
        let threads = waiters.len().max(1);
        let watch = Watch::start(rt)?;
        thread::for_each_mut(
            rt,
            waiters.as_mut_slice(),
            threads,
            &|_, waiter| { look_often(groups, waiter, rounds) },
        );
        *run = watch.stop(rt)?;
    }
    Ok(runs)
}

fn time_counts<R: Threads + Sync + Clock + CpuClock>(
    rt: &R,
    book: &Book,
    tellers: &mut Vec<Teller>,
    rounds: u32,
) -> Result<[Run; RUNS], Failed>
    requires { All (IsTellerOf book.now) tellers.old.items }
    ensures { OnOk result (All (IsTellerOf book.now) tellers.new.items) }
{
    let mut runs = [Run::ZERO; RUNS];
    for run in runs.iter_mut() {
        let threads = tellers.len().max(1);
        let watch = Watch::start(rt)?;
        thread::for_each_mut(
            rt,
            tellers.as_mut_slice(),
            threads,
            &|_, teller| { count_often(book, teller, rounds) },
        );
        *run = watch.stop(rt)?;
    }
    Ok(runs)
}

/// Looks at the active count, once a round.
fn look_often(groups: &Groups, waiter: &mut Waiter, rounds: u32)
    requires { IsWaiterOf groups.now waiter.old }
    ensures { IsWaiterOf groups.now waiter.new }
{
    for _ in 0..rounds {
        groups.active(waiter);
    }
}

/// Counts one completion a round.
fn count_often(book: &Book, teller: &mut Teller, rounds: u32)
    requires { IsTellerOf book.now teller.old }
    ensures { IsTellerOf book.now teller.new }
{
    for _ in 0..rounds {
        book.count(teller, 1);
    }
}
