//! Callers on threads of their own, over one shared map.
ghost use Rattle.std.specs.Prelude.{All};
ghost use Rattle.tag_core.specs.Callers.{IsCallerOf};

use crate::tests::map::callers::opened;
use std::alloc::Global;
use std::sync::atomic::AtomicU64;
use std::sync::atomic::Ordering::SeqCst;
use std::test::Fail;
use std::thread;
use std::thread::Threads;
use tag_core::{Caller, Map};
use tag_layout::Layout;
use tag_search::{Hint, on_map};

/// Number of threads, each with its own caller.
const CALLERS: u32 = 4;

/// Number of gets of each thread.
const ROUNDS: u32 = 10_000;

/// How a tag is given back.
#[derive(Clone, Copy)]
enum Clear {
    /// Freed at once.
    Give,
    /// Set aside for a sweep.
    Put,
}

/// What the threads observed.
#[derive(Drop)]
struct Seen {
    /// Tags in use, one bit for each.
    taken: AtomicU64,
    /// How often a get returned a tag that was in use.
    clashes: AtomicU64,
}

impl Seen {
    fn comes(&self, tag: u32) {
        let bit = 1u64 << (tag & 63);
        if self.taken.fetch_or(bit, SeqCst) & bit != 0 {
            self.clashes.fetch_add(1, SeqCst);
        }
    }

    fn goes(&self, tag: u32) {
        self.taken.fetch_and(!(1u64 << (tag & 63)), SeqCst);
    }
}

/// One get and, if it returned a tag, the clear of the tag.
fn round(map: &Map<u64>, caller: &mut Caller<u64>, hint: &mut Hint, clear: Clear, seen: &Seen)
    requires { IsCallerOf map.now caller.old }
    ensures { IsCallerOf map.now caller.new }
{
    if let Ok(found) = on_map::get(map, caller, hint)
        && let Some(tag) = found.answer
    {
        seen.comes(tag);
        seen.goes(tag);
        match clear {
            Clear::Give => on_map::give(map, caller, hint, tag),
            Clear::Put => on_map::put(map, caller, hint, tag),
        }
    }
}

fn rounds(map: &Map<u64>, caller: &mut Caller<u64>, clear: Clear, seen: &Seen)
    requires { IsCallerOf map.now caller.old }
    ensures { IsCallerOf map.now caller.new }
{
    let mut hint = Hint {
        at: 0,
        round_robin: false,
    };
    for _ in 0..ROUNDS {
        round(map, caller, &mut hint, clear, seen);
    }
}

/// Runs the rounds of all callers, each on a thread of its own.
fn run_all<R: Threads + Sync>(
    rt: &R,
    map: &Map<u64>,
    callers: &mut [Caller<u64>],
    clear: Clear,
    seen: &Seen,
)
    requires { All (IsCallerOf map.now) callers.old }
    ensures { All (IsCallerOf map.now) callers.new }
{
    thread::for_each_mut(
        rt,
        callers,
        CALLERS as usize,
        &|_number, caller| { rounds(map, caller, clear, seen) },
    );
}

/// Returns the tags won less those given back, the tags held and posted after all rounds, and the number of clashes.
fn four_callers<R: Threads + Sync>(rt: &R, alloc: Global, clear: Clear) -> Result<[u64; 4], Fail> {
    let (map, mut callers) = opened(alloc, Layout::new(3, None)?, CALLERS, ROUNDS as u64)?;
    let seen = Seen {
        taken: AtomicU64::new(0),
        clashes: AtomicU64::new(0),
    };
    run_all(rt, &map, callers.as_mut_slice(), clear, &seen);
    let Ok(closed) = Map::gather(map, callers) else {
        return Err(Fail::new("a caller is missing"));
    };
    let totals = closed.totals;
    let missing = totals.got.wrapping_sub(totals.back);
    let clashes = seen.clashes.load(SeqCst);
    if totals.got == 0 {
        return Err(Fail::new("no tag came"));
    }
    Ok([missing, totals.held, totals.posted, clashes])
}

#[test]
fn four_callers_that_give_balance(rt: HostRuntime) -> Result<(), Fail> {
    assert_eq!(rt; four_callers(&rt, rt.alloc(), Clear::Give)?, [0; 4]);
    Ok(())
}

#[test]
fn four_callers_that_put_balance(rt: HostRuntime) -> Result<(), Fail> {
    assert_eq!(rt; four_callers(&rt, rt.alloc(), Clear::Put)?, [0; 4]);
    Ok(())
}
