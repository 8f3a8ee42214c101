//! The workload `plain`: one caller alone gets a tag and clears it.
use crate::measure::{Failed, RUNS, Run, Times, Watch, print_case};
use crate::options::Options;
use std::alloc::Global;
use std::io;
use std::time::{Clock, CpuClock};
use tag_layout::Layout;
use tag_search::{Hint, PlainPort, after_clear, get};

/// Tags that stay free on a map that is nearly full.
const SPARE: u32 = 4;

/// Depths that are tried where none is asked for.
const DEPTHS: [u32; 3] = [64, 1_024, 10_240];

/// Runs each case.
pub(crate) fn run<R: AllocGlobal + Print + Clock + CpuClock>(
    rt: &R,
    options: &Options,
) -> Result<(), Failed> {
    if let Some(depth) = options.depth {
        return run_depth(rt, options, depth);
    }
    for depth in DEPTHS {
        run_depth(rt, options, depth)?;
    }
    Ok(())
}

/// A map of this depth that is nearly empty, and one that is nearly full.
fn run_depth<R: AllocGlobal + Print + Clock + CpuClock>(
    rt: &R,
    options: &Options,
    depth: u32,
) -> Result<(), Failed> {
    for free in [depth, SPARE.min(depth)] {
        let mut port = prepare(rt.alloc(), depth, free)?;
        let mut runs = [Run::ZERO; RUNS];
        let mut done = 0;
        for run in runs.iter_mut() {
            let watch = Watch::start(rt)?;
            done = pairs(&mut port, options.rounds);
            *run = watch.stop(rt)?;
        }
        let times = Times {
            runs,
            operations: u64::from(done),
        };
        print_case(
            rt,
            options.show,
            "plain",
            format_args!("get and put, {free} of {depth} free"),
            1,
            times,
            format_args!("pairs={done}"),
        )?;
    }
    Ok(())
}

/// A map of this depth, with all but a given number of its tags taken.
fn prepare(alloc: Global, depth: u32, free: u32) -> Result<PlainPort, Failed> {
    let mut port = PlainPort::open(alloc, Layout::new(depth, None)?)?;
    let mut hint = first_hint();
    for _ in free..depth {
        let _ = get(&mut port, &mut hint);
    }
    Ok(port)
}

/// A caller's first hint.
fn first_hint() -> Hint {
    Hint {
        at: 0,
        round_robin: false,
    }
}

/// Gets a tag and clears it, once a round. Returns the number of tags got.
#[inline(never)]
fn pairs(port: &mut PlainPort, rounds: u32) -> u32 {
    let mut hint = first_hint();
    let mut done: u32 = 0;
    for _ in 0..rounds {
        if let Ok(Some(tag)) = get(port, &mut hint) {
            if port.taken(tag) {
                port.put(tag);
                after_clear(&mut hint, tag);
                done = done.wrapping_add(1);
            }
        }
    }
    done
}
