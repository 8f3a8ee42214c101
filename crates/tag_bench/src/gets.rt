//! The workload `shared`: callers get tags of the shared map, and clear them.
ghost use Rattle.tag_core.specs.Callers.{IsCallerOf};

use crate::claims::Clear;
use crate::jobs::{Job, Plan, carry_out};
use crate::measure::{Failed, print_case};
use crate::options::Options;
use std::thread::Threads;
use std::time::{Clock, CpuClock};
use tag_core::{Caller, Map};
use tag_search::{Hint, on_map};

/// Tags of the map where no count is asked for: 16 words of 64.
const DEPTH: u32 = 1_024;

/// Runs each case.
pub(crate) fn run<R: AllocGlobal + Threads + Sync + Print + Clock + CpuClock>(
    rt: &R,
    options: &Options,
) -> Result<(), Failed> {
    for clear in [Clear::Put, Clear::Give] {
        for apart in [true, false] {
            for &threads in options.threads.iter() {
                run_case(rt, options, clear, apart, threads)?;
            }
        }
    }
    Ok(())
}

/// Where the hints are apart, each caller begins in a part of the map of its own; else all begin at tag 0.
fn run_case<R: AllocGlobal + Threads + Sync + Print + Clock + CpuClock>(
    rt: &R,
    options: &Options,
    clear: Clear,
    apart: bool,
    threads: u32,
) -> Result<(), Failed> {
    let depth = options.depth.unwrap_or(DEPTH);
    let plan = Plan {
        depth,
        threads,
        winners: threads,
        stride: if apart { depth / threads.max(1) } else { 0 },
        rounds: options.rounds,
    };
    let outcome = carry_out::<R, Map<u64>, Gets>(rt, plan, &Gets { clear })?;
    let way = clear.name();
    let hints = if apart { "apart" } else { "from 0" };
    let even = outcome.even;
    print_case(
        rt,
        options.show,
        "shared",
        format_args!("get and {way}, hints {hints}, depth {depth}"),
        threads,
        outcome.times,
        format_args!("even={even}"),
    )?;
    Ok(())
}

/// Each caller gets tags and clears them.
#[derive(Drop)]
struct Gets {
    clear: Clear,
}

impl Job<Map<u64>> for Gets {
    fn work(&self, map: &Map<u64>, caller: &mut Caller<u64>, index: usize, plan: Plan) {
        let hint = plan.hint(index);
        match self.clear {
            Clear::Put => put_often(map, caller, hint, plan.rounds),
            Clear::Give => give_often(map, caller, hint, plan.rounds),
        }
    }
}

#[inline(never)]
fn put_often(map: &Map<u64>, caller: &mut Caller<u64>, from: Hint, rounds: u32)
    requires { IsCallerOf map.now caller.old }
    ensures { IsCallerOf map.now caller.new }
{
    let mut hint = from;
    for _ in 0..rounds {
        let Ok(found) = on_map::get(map, caller, &mut hint) else {
            return;
        };
        if let Some(tag) = found.answer {
            on_map::put(map, caller, &mut hint, tag);
        }
    }
}

#[inline(never)]
fn give_often(map: &Map<u64>, caller: &mut Caller<u64>, from: Hint, rounds: u32)
    requires { IsCallerOf map.now caller.old }
    ensures { IsCallerOf map.now caller.new }
{
    let mut hint = from;
    for _ in 0..rounds {
        let Ok(found) = on_map::get(map, caller, &mut hint) else {
            return;
        };
        if let Some(tag) = found.answer {
            on_map::give(map, caller, &mut hint, tag);
        }
    }
}
