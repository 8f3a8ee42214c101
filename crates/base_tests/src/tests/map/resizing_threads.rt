//! Four threads on one map after another.
ghost use Rattle.std.specs.Prelude.{All, IfOk};
ghost use Rattle.tag_core.specs.Callers.{IsCallerOf};

use crate::tests::map::callers::{claim_bits, close, give_tag, opened, put_tag, sweep_word};
use crate::tests::map::resizing::resize;
use crate::tests::totals::totals;
use std::alloc::Global;
use std::sync::atomic::AtomicU64;
use std::sync::atomic::Ordering::SeqCst;
use std::test::Fail;
use std::thread;
use std::thread::Threads;
use tag_core::{Caller, Map};
use tag_layout::Layout;

const THREADS: u32 = 4;

/// Rounds of each thread on each map.
const ROUNDS: u32 = 20_000;

/// The tags of a claim are given back, or put aside.
fn clear(map: &Map<u64>, caller: &mut Caller<u64>, word: u32, won: u64, aside: bool)
    requires { IsCallerOf map.now caller.old }
    ensures { IsCallerOf map.now caller.new }
{
    let layout = map.layout();
    if word >= layout.words() {
        return;
    }
    for place in 0..layout.word_depth(word) {
        if won >> place & 1 == 1 {
            let tag = layout.tag_at(word, place);
            if aside {
                put_tag(map, caller, tag);
            } else {
                give_tag(map, caller, tag);
            }
        }
    }
}

/// Claims whole words in turn, and clears what it won.
fn play(map: &Map<u64>, caller: &mut Caller<u64>, won: &AtomicU64)
    requires { IsCallerOf map.now caller.old }
    ensures { IsCallerOf map.now caller.new }
{
    let layout = map.layout();
    for round in 0..ROUNDS {
        if layout.words() == 0 {
            return;
        }
        let word = round % layout.words();
        if let Some(Ok(claim)) = claim_bits(map, caller, word, layout.usable(word)) {
            won.fetch_add(claim.won.count_ones() as u64, SeqCst);
            clear(map, caller, word, claim.won, round % 2 == 0);
        }
        sweep_word(map, caller, word);
    }
}

/// The threads play on the map, and the callers go on with one of this depth.
fn play_and_resize<T: Threads + Sync>(
    rt: &T,
    alloc: Global,
    map: Map<u64>,
    mut callers: Vec<Caller<u64>>,
    won: &AtomicU64,
    depth: u32,
) -> Result<(Map<u64>, Vec<Caller<u64>>), Fail>
    requires { All (IsCallerOf map) callers.items }
    ensures { IfOk result (λ p. All (IsCallerOf p.0) p.1.items) }
{
    thread::for_each_mut(
        rt,
        callers.as_mut_slice(),
        THREADS as usize,
        &|_, caller| play(&map, caller, won),
    );
    resize(alloc, map, callers, Layout::new(depth, None)?)
}

/// The same for each of these depths in turn.
fn play_through<T: Threads + Sync>(
    rt: &T,
    alloc: Global,
    mut map: Map<u64>,
    mut callers: Vec<Caller<u64>>,
    won: &AtomicU64,
    depths: &[u32],
) -> Result<(Map<u64>, Vec<Caller<u64>>), Fail>
    requires { All (IsCallerOf map) callers.items }
    ensures { IfOk result (λ p. All (IsCallerOf p.0) p.1.items) }
{
    for depth in depths {
        (map, callers) = play_and_resize(rt, alloc, map, callers, won, *depth)?;
    }
    Ok((map, callers))
}

#[test]
fn threads_go_on_with_a_next_map(rt: HostRuntime) -> Result<(), Fail> {
    let (map, callers) = opened(rt.alloc(), Layout::new(8, Some(2))?, THREADS, 1 << 40)?;
    let won = AtomicU64::new(0);
    let (map, callers) = play_and_resize(&rt, rt.alloc(), map, callers, &won, 3)?;
    let first = won.load(SeqCst);
    let (map, callers) = play_through(&rt, rt.alloc(), map, callers, &won, &[0, 1, 130, 8])?;
    let got = won.load(SeqCst);
    assert!(rt; 0 < first && first < got);
    assert_eq!(rt; close(map, callers)?.totals, totals(got, got, 0, 0));
    Ok(())
}
