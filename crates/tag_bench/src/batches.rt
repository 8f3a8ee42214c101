//! The workload `batch`: one caller gets tags side by side, and gives them back at once.
ghost use Rattle.std.specs.Prelude.{◌≡◌, ℕ, ◌+◌, ◌≤◌, IfSome};
ghost use Rattle.std.specs.Int.{bit_at};
ghost use Rattle.tag_layout.specs.Layout.{word_bits};
ghost use Rattle.tag_core.specs.Callers.{layout_of, IsCallerOf, Holds};

use crate::allocator::TagAllocator;
use crate::jobs::{Job, Plan};
use crate::measure::Failed;
use crate::options::Options;
use crate::traffic::{plans, run_case};
use std::thread::Threads;
use std::time::{Clock, CpuClock};
use tag_core::{Caller, Map};
use tag_search::{Hint, after_clear, on_map};

/// Tags of a batch.
const BATCH: u32 = 8;

/// Runs each case.
pub(crate) fn run<R: AllocGlobal + Threads + Sync + Print + Clock + CpuClock>(
    rt: &R,
    options: &Options,
) -> Result<(), Failed> {
    for &plan in plans(rt.alloc(), options)?.iter() {
        run_case::<R, Map<u64>, Batches>(rt, options, "batch", plan, &Batches)?;
    }
    Ok(())
}

/// Each thread gets batches until it has got a given number of tags in all, touches the slots of each batch and gives
/// it back.
#[derive(Drop)]
struct Batches;

impl Job<Map<u64>> for Batches {
    #[inline(never)]
    fn work(&self, map: &Map<u64>, caller: &mut Caller<u64>, index: usize, plan: Plan) {
        let mut hint = plan.hint(index);
        let bits = 1u32 << map.layout().shift();
        if bits < BATCH {
            return;
        }
        for round in 0..plan.rounds / BATCH {
            batch(map, caller, &mut hint, round);
        }
    }
}

#[inline]
fn batch(map: &Map<u64>, caller: &mut Caller<u64>, hint: &mut Hint, value: u32)
    requires caller { IsCallerOf map.now caller.old }
    requires wide { 8 ≤ word_bits (layout_of map.now) }
    ensures { IsCallerOf map.now caller.new }
{
    if let Some((first, won)) = win_run(map, caller, hint) {
        touch_run(map, caller, first, won, value);
        give_run(map, caller, first, won);
        after_clear(hint, first);
    }
}

/// The first tag of a batch, and the mask of those won.
#[inline]
fn win_run(map: &Map<u64>, caller: &mut Caller<u64>, hint: &mut Hint) -> Option<(u32, u64)>
    requires caller { IsCallerOf map.now caller.old }
    requires wide { 8 ≤ word_bits (layout_of map.now) }
    ensures caller { IsCallerOf map.now caller.new }
    ensures held { IfSome result (λ run. (k : ℕ) → bit_at run.1 k ≡ 1 → Holds caller.new (run.0 + k)) }
{
    let Ok(found) = on_map::get_batch(map, caller, hint, BATCH) else {
        return None;
    };
    found.answer
}

/// Touches the slot of each tag of a batch.
#[inline]
fn touch_run(map: &Map<u64>, caller: &mut Caller<u64>, first: u32, won: u64, value: u32)
    requires caller { IsCallerOf map.now caller.old }
    requires held { (k : ℕ) → bit_at won k ≡ 1 → Holds caller.old (first + k) }
    ensures caller { IsCallerOf map.now caller.new }
    ensures held { (k : ℕ) → bit_at won k ≡ 1 → Holds caller.new (first + k) }
{
    for place in 0..BATCH {
        if won >> place & 1 == 1 {
            map.touch(caller, first + place, value);
        }
    }
}

/// Frees the tags of a batch in one step.
#[inline]
fn give_run(map: &Map<u64>, caller: &mut Caller<u64>, first: u32, won: u64)
    requires caller { IsCallerOf map.now caller.old }
    requires held { (k : ℕ) → bit_at won k ≡ 1 → Holds caller.old (first + k) }
    ensures { IsCallerOf map.now caller.new }
{
    let layout = map.layout();
    if first >= layout.depth() {
        return;
    }
    let word = layout.word_of(first);
    let mask = won << layout.place_of(first);
    if mask <= layout.usable(word) {
        map.give(caller, word, mask);
    }
}
