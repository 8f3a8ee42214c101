//! Four threads on one map.
ghost use Rattle.std.specs.Prelude.{◌<◌, All};
ghost use Rattle.tag_core.specs.Callers.{IsCallerOf};

use crate::tests::map::callers::{
    claim_bits, close, exchange, give_tag, opened, post_tag, put_tag, sweep_word, take_tag,
};
use crate::tests::totals::totals;
use std::alloc::Global;
use std::sync::atomic::AtomicU64;
use std::sync::atomic::Ordering::SeqCst;
use std::test::Fail;
use std::thread;
use std::thread::Threads;
use tag_core::{Caller, Closed, Map};
use tag_layout::Layout;

/// Tags, in two words of four.
const DEPTH: u32 = 8;

const THREADS: u32 = 4;

/// Rounds of each thread.
const ROUNDS: u32 = 200_000;

/// What the threads saw.
#[derive(Drop)]
struct Tally {
    /// Tags won, by what each claim answered.
    won: AtomicU64,
    /// Tags put or given back.
    back: AtomicU64,
    /// Tags posted.
    posted: AtomicU64,
    /// Posted tags that were taken.
    taken: AtomicU64,
    /// Slots with another value than the tag's holder wrote, and calls that a holder could not make.
    wrong: AtomicU64,
    /// The value that the last holder wrote into each tag's slot.
    written: Vec<AtomicU64>,
}

impl Tally {
    fn new(alloc: Global) -> Result<Tally, Fail> {
        let mut written = Vec::new(alloc);
        for _ in 0..DEPTH {
            written.push(AtomicU64::new(0))?;
        }
        Ok(Tally {
            won: AtomicU64::new(0),
            back: AtomicU64::new(0),
            posted: AtomicU64::new(0),
            taken: AtomicU64::new(0),
            wrong: AtomicU64::new(0),
            written,
        })
    }
}

fn count(number: &AtomicU64, so: bool) {
    if so {
        number.fetch_add(1, SeqCst);
    }
}

/// Whether the slot of a held tag has the value that was written there last. It is 0 then.
fn reads_back(map: &Map<u64>, caller: &mut Caller<u64>, tally: &Tally, tag: u32) -> bool
    requires { IsCallerOf map.now caller.old }
    ensures { IsCallerOf map.now caller.new }
{
    let found = exchange(map, caller, tag, 0);
    match tally.written.get(tag as usize) {
        Some(written) => found == Some(written.load(SeqCst)),
        None => false,
    }
}

/// Writes the slot of a held tag.
fn write(map: &Map<u64>, caller: &mut Caller<u64>, tally: &Tally, tag: u32, value: u64)
    requires { IsCallerOf map.now caller.old }
    ensures { IsCallerOf map.now caller.new }
{
    count(&tally.wrong, exchange(map, caller, tag, value).is_none());
    if let Some(written) = tally.written.get(tag as usize) {
        written.store(value, SeqCst);
    }
}

/// A tag that was won is written and read, and is posted, set aside or given.
fn spend(map: &Map<u64>, caller: &mut Caller<u64>, tally: &Tally, tag: u32, value: u64)
    requires { IsCallerOf map.now caller.old }
    ensures { IsCallerOf map.now caller.new }
{
    write(map, caller, tally, tag, value);
    count(&tally.wrong, !reads_back(map, caller, tally, tag));
    write(map, caller, tally, tag, value ^ 1);
    if value % 4 < 2 {
        let done = post_tag(map, caller, tag, 0);
        count(&tally.posted, done);
        count(&tally.wrong, !done);
        return;
    }
    let done = if value % 4 == 2 {
        put_tag(map, caller, tag)
    } else {
        give_tag(map, caller, tag)
    };
    count(&tally.back, done);
    count(&tally.wrong, !done);
}

/// Posted tags are taken, read, and set aside.
fn take_posted(map: &Map<u64>, caller: &mut Caller<u64>, tally: &Tally)
    requires { IsCallerOf map.now caller.old }
    ensures { IsCallerOf map.now caller.new }
{
    for tag in 0..DEPTH {
        if take_tag(map, caller, tag) {
            count(&tally.taken, true);
            count(&tally.wrong, !reads_back(map, caller, tally, tag));
            let done = put_tag(map, caller, tag);
            count(&tally.back, done);
            count(&tally.wrong, !done);
        }
    }
}

/// Two tags of a word are claimed, and those won are spent.
fn win_some(map: &Map<u64>, caller: &mut Caller<u64>, tally: &Tally, number: usize, round: u32)
    requires { IsCallerOf map.now caller.old }
    ensures { IsCallerOf map.now caller.new }
{
    let word = round % 2;
    let Some(Ok(claim)) = claim_bits(map, caller, word, 3 << (round / 2 % 3)) else {
        return count(&tally.wrong, true);
    };
    for place in 0..4u32 {
        if claim.won >> place & 1 == 1 {
            count(&tally.won, true);
            let value = (number as u64) << 40 ^ (round as u64) << 8 ^ place as u64;
            spend(map, caller, tally, word * 4 + place, value);
        }
    }
}

fn play(map: &Map<u64>, caller: &mut Caller<u64>, tally: &Tally, number: usize)
    requires { IsCallerOf map.now caller.old }
    ensures { IsCallerOf map.now caller.new }
{
    for round in 0..ROUNDS {
        take_posted(map, caller, tally);
        win_some(map, caller, tally, number, round);
        sweep_word(map, caller, round % 2);
    }
}

/// All callers play at once, and come together.
fn play_all<T: Threads + Sync>(
    rt: &T,
    map: Map<u64>,
    mut callers: Vec<Caller<u64>>,
    tally: &Tally,
) -> Result<Closed<u64>, Fail>
    requires { All (IsCallerOf map) callers.items }
{
    thread::for_each_mut(
        rt,
        callers.as_mut_slice(),
        THREADS as usize,
        &|number, caller| play(&map, caller, tally, number),
    );
    close(map, callers)
}

#[test]
fn a_slot_has_what_its_holder_wrote_among_threads(rt: HostRuntime) -> Result<(), Fail> {
    let tally = Tally::new(rt.alloc())?;
    let (map, callers) = opened(rt.alloc(), Layout::new(DEPTH, Some(2))?, THREADS, 1 << 40)?;
    let closed = play_all(&rt, map, callers, &tally)?;
    let (posted, taken) = (tally.posted.load(SeqCst), tally.taken.load(SeqCst));
    assert!(rt; tally.wrong.load(SeqCst) == 0);
    assert!(rt; 0 < taken);
    assert_eq!(rt;
        closed.totals,
        totals(
            tally.won.load(SeqCst),
            tally.back.load(SeqCst),
            0,
            posted.wrapping_sub(taken)
        )
    );
    Ok(())
}
