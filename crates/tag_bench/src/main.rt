//! Measures the library, workload by workload.
//!
//! Without an option each case of each workload runs a few thousand rounds, and the program prints what holds of it
//! whatever the schedule. With `--measure` it prints nanoseconds per operation, the median of seven runs.
#![tactic(auto)]

mod allocator;
mod batches;
mod claims;
mod command_line;
mod gets;
mod jobs;
mod measure;
mod options;
mod pipes;
mod plain;
mod rounds;
mod shared_cache;
mod shared_map;
mod shared_pool;
mod shared_queue;
mod traffic;
mod waits;
mod wakes;

use crate::measure::Failed;
use crate::options::{Options, Queued, WORKLOADS, Workload};
use crate::shared_cache::Cached;
use crate::traffic::{TRAFFIC, Traffic};
use clap::error::ErrorKind;
use std::env;
use std::process::ExitCode;
use std::rt::Env;
use std::sync::Wait;
use std::thread::Threads;
use std::time::{Clock, CpuClock};
use tag_core::Map;
use tag_pool::Pool;
use tag_queue::Queue;

fn main(rt: HostRuntime) -> ExitCode {
    match play(&rt) {
        Ok(status) => ExitCode::from(status),
        Err(failed) => {
            let _ = eprintln!(rt; "tag_bench stopped: {failed:?}");
            ExitCode::FAILURE
        }
    }
}

/// Runs what the command line asks for. Answers the exit status.
fn play<R: AllocGlobal + Env + Threads + Wait + Sync + Clock + CpuClock + Print + Eprint>(
    rt: &R,
) -> Result<u8, Failed> {
    let words: Vec<String> = env::args(rt)?.collect(rt.alloc())?;
    let command = command_line::command(rt.alloc())?;
    match command.try_get_matches_from(words.as_slice()) {
        Ok(matches) => {
            run(rt, &options::read(rt.alloc(), &matches)?)?;
            Ok(0)
        }
        Err(error) if error.kind() == ErrorKind::OutOfMemory => Err(Failed::Memory),
        Err(error) => {
            error.print(rt)?;
            Ok(error.exit_code() as u8)
        }
    }
}

/// Runs the workload that was asked for, or each.
fn run<R: AllocGlobal + Threads + Wait + Sync + Clock + CpuClock + Print>(
    rt: &R,
    options: &Options,
) -> Result<(), Failed> {
    if let Some(workload) = options.workload {
        return run_workload(rt, options, workload);
    }
    for workload in WORKLOADS {
        run_workload(rt, options, workload)?;
    }
    Ok(())
}

fn run_workload<R: AllocGlobal + Threads + Wait + Sync + Clock + CpuClock + Print>(
    rt: &R,
    options: &Options,
    workload: Workload,
) -> Result<(), Failed> {
    match workload {
        Workload::Plain => plain::run(rt, options),
        Workload::Map => claims::run(rt, options),
        Workload::Shared => gets::run(rt, options),
        Workload::Wakes => wakes::run(rt, options),
        Workload::Traffic(traffic) => run_on_map(rt, options, traffic),
        Workload::Batch => batches::run(rt, options),
        Workload::Queue(queued) => run_queue(rt, options, queued),
        Workload::Pool(traffic) => run_pool(rt, options, traffic),
        Workload::Cache(traffic) => run_caches(rt, options, traffic),
    }
}

/// Runs a workload over the shared map.
fn run_on_map<R: AllocGlobal + Threads + Sync + Clock + CpuClock + Print>(
    rt: &R,
    options: &Options,
    traffic: Traffic,
) -> Result<(), Failed> {
    traffic::run::<R, Map<u64>>(rt, options, "", traffic)
}

/// Runs a workload over a queue.
fn run_on_queue<R: AllocGlobal + Threads + Sync + Clock + CpuClock + Print>(
    rt: &R,
    options: &Options,
    traffic: Traffic,
) -> Result<(), Failed> {
    traffic::run::<R, Queue<u64>>(rt, options, "queue ", traffic)
}

/// Runs a workload over a pool without reserved tags.
fn run_on_pool<R: AllocGlobal + Threads + Sync + Clock + CpuClock + Print>(
    rt: &R,
    options: &Options,
    traffic: Traffic,
) -> Result<(), Failed> {
    traffic::run::<R, Pool<u64>>(rt, options, "pool ", traffic)
}

/// Runs the workload of a pool that was asked for, or each.
fn run_pool<R: AllocGlobal + Threads + Sync + Clock + CpuClock + Print>(
    rt: &R,
    options: &Options,
    traffic: Option<Traffic>,
) -> Result<(), Failed> {
    if let Some(traffic) = traffic {
        return run_on_pool(rt, options, traffic);
    }
    for traffic in TRAFFIC {
        run_on_pool(rt, options, traffic)?;
    }
    Ok(())
}

/// Runs a workload over a pool where each thread has a cache.
fn run_on_caches<R: AllocGlobal + Threads + Sync + Clock + CpuClock + Print>(
    rt: &R,
    options: &Options,
    traffic: Traffic,
) -> Result<(), Failed> {
    traffic::run::<R, Cached>(rt, options, "cache ", traffic)
}

/// Runs the workload of caches that was asked for, or each.
fn run_caches<R: AllocGlobal + Threads + Sync + Clock + CpuClock + Print>(
    rt: &R,
    options: &Options,
    traffic: Option<Traffic>,
) -> Result<(), Failed> {
    if let Some(traffic) = traffic {
        return run_on_caches(rt, options, traffic);
    }
    for traffic in TRAFFIC {
        run_on_caches(rt, options, traffic)?;
    }
    Ok(())
}

/// Runs the workload of the queue that was asked for, or each.
fn run_queue<R: AllocGlobal + Threads + Wait + Sync + Clock + CpuClock + Print>(
    rt: &R,
    options: &Options,
    queued: Option<Queued>,
) -> Result<(), Failed> {
    match queued {
        Some(Queued::Traffic(traffic)) => run_on_queue(rt, options, traffic),
        Some(Queued::Waiters) => waits::run(rt, options),
        None => {
            for traffic in TRAFFIC {
                run_on_queue(rt, options, traffic)?;
            }
            waits::run(rt, options)
        }
    }
}
