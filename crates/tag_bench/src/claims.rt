//! The workload `map`: callers claim tags of the shared map by their numbers, and clear them.
ghost use Rattle.std.specs.Prelude.{◌+◌, ◌<◌, ◌≤◌, IsTrue};
ghost use Rattle.tag_core.specs.Callers.{layout_of, IsCallerOf, Holds};

use crate::jobs::{Job, Plan, carry_out};
use crate::measure::{Failed, print_case};
use crate::options::Options;
use std::thread::Threads;
use std::time::{Clock, CpuClock};
use tag_core::{Caller, Map};
use tag_search::{Hint, on_map};

/// Tags of the map: 16 words of 64.
const DEPTH: u32 = 1_024;

/// Tags that a caller claims and clears in one lap, in the order of their numbers.
const TAGS: u32 = 16;

/// Tags from one caller's first to the next one's: each has a word of its own, or four have parts of one word.
const STRIDES: [u32; 2] = [64, TAGS];

/// How a caller clears a tag.
#[derive(Clone, Copy)]
pub(crate) enum Clear {
    /// It sets it aside for a sweep.
    Put,
    /// It frees it at once.
    Give,
}

impl Clear {
    /// As a case's name has it.
    pub(crate) fn name(self) -> &'static str {
        match self {
            Clear::Put => "put",
            Clear::Give => "give",
        }
    }
}

/// Runs each case.
pub(crate) fn run<R: AllocGlobal + Threads + Sync + Print + Clock + CpuClock>(
    rt: &R,
    options: &Options,
) -> Result<(), Failed> {
    for clear in [Clear::Put, Clear::Give] {
        for stride in STRIDES {
            for &threads in options.threads.iter() {
                let plan = Plan {
                    depth: DEPTH,
                    threads,
                    winners: threads,
                    stride,
                    rounds: options.rounds,
                };
                let outcome = carry_out::<R, Map<u64>, Claims>(rt, plan, &Claims { clear })?;
                let way = clear.name();
                let even = outcome.even;
                print_case(
                    rt,
                    options.show,
                    "map",
                    format_args!("claim and {way}, {stride} apart"),
                    threads,
                    outcome.times,
                    format_args!("even={even}"),
                )?;
            }
        }
    }
    Ok(())
}

/// Each caller claims and clears tags in laps, from its first on.
#[derive(Drop)]
struct Claims {
    clear: Clear,
}

impl Job<Map<u64>> for Claims {
    fn work(&self, map: &Map<u64>, caller: &mut Caller<u64>, index: usize, plan: Plan) {
        let first = plan.first(index);
        let depth = map.layout().depth();
        if first >= depth || depth - first < TAGS {
            return;
        }
        let laps = plan.rounds.div_ceil(TAGS);
        match self.clear {
            Clear::Put => put_often(map, caller, first, laps),
            Clear::Give => give_often(map, caller, first, laps),
        }
    }
}

/// Claims and puts the tags, and sweeps their word after each lap.
#[inline(never)]
fn put_often(map: &Map<u64>, caller: &mut Caller<u64>, first: u32, laps: u32)
    requires caller { IsCallerOf map.now caller.old }
    requires tags { first + 16 ≤ (layout_of map.now).depth }
    ensures { IsCallerOf map.now caller.new }
{
    let word = map.layout().word_of(first);
    for _ in 0..laps {
        for tag in first..first + TAGS {
            claim_and_put(map, caller, tag);
        }
        map.sweep(caller, word);
    }
}

#[inline(never)]
fn give_often(map: &Map<u64>, caller: &mut Caller<u64>, first: u32, laps: u32)
    requires caller { IsCallerOf map.now caller.old }
    requires tags { first + 16 ≤ (layout_of map.now).depth }
    ensures { IsCallerOf map.now caller.new }
{
    for _ in 0..laps {
        for tag in first..first + TAGS {
            claim_and_give(map, caller, tag);
        }
    }
}

fn claim_and_put(map: &Map<u64>, caller: &mut Caller<u64>, tag: u32)
    requires caller { IsCallerOf map.now caller.old }
    requires tag { tag < (layout_of map.now).depth }
    ensures { IsCallerOf map.now caller.new }
{
    if claim(map, caller, tag) {
        map.put(caller, tag);
    }
}

fn claim_and_give(map: &Map<u64>, caller: &mut Caller<u64>, tag: u32)
    requires caller { IsCallerOf map.now caller.old }
    requires tag { tag < (layout_of map.now).depth }
    ensures { IsCallerOf map.now caller.new }
{
    if claim(map, caller, tag) {
        give(map, caller, tag);
    }
}

/// Claims a tag, and answers whether the caller holds it.
fn claim(map: &Map<u64>, caller: &mut Caller<u64>, tag: u32) -> bool
    requires caller { IsCallerOf map.now caller.old }
    requires tag { tag < (layout_of map.now).depth }
    ensures caller { IsCallerOf map.now caller.new }
    ensures held { IsTrue result → Holds caller.new tag }
{
    let layout = map.layout();
    let bit = 1u64 << layout.place_of(tag);
    map.claim(caller, layout.word_of(tag), bit).is_ok() && caller.holds(tag)
}

/// Frees a held tag at once. Nobody searches here, so its hint goes unused.
#[inline]
fn give(map: &Map<u64>, caller: &mut Caller<u64>, tag: u32)
    requires caller { IsCallerOf map.now caller.old }
    requires held { Holds caller.old tag }
    ensures { IsCallerOf map.now caller.new }
{
    let mut unused = Hint {
        at: 0,
        round_robin: true,
    };
    on_map::give(map, caller, &mut unused, tag);
}
