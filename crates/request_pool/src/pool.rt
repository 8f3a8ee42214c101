//! A pool of tags, and the threads that serve requests under them.
ghost use Rattle.std.specs.Prelude.{◌≡◌, ◌+◌, All, IfOk};
ghost use Rattle.tag_pool.specs.Hands.{IsHandOf};

use std::sync::Wait;
use std::sync::atomic::AtomicU64;
use std::sync::atomic::Ordering::SeqCst;
use std::thread;
use std::thread::Threads;
use tag_model::Totals;
use tag_pool::{GatherCause, Hand, OpenFault, Options, Pool, ResizeCause, TagFault};

/// Threads, each with a hand of its own.
const THREADS: u32 = 2;

/// Requests of each thread, before the resize and again after it.
const REQUESTS: u64 = 10_000;

/// What was served.
#[derive(Clone, Copy)]
pub(crate) struct Served {
    /// Requests that found their own number in their slot.
    pub(crate) requests: u64,
    pub(crate) tags: Totals,
}

/// Why nothing was served.
#[derive(Clone, Copy, Debug)]
pub(crate) enum Stop {
    Open(OpenFault),
    Resize(ResizeCause),
    Gather(GatherCause),
}

/// Serves requests under one ordinary tag, so that the threads wait for each other, and then under sixteen.
pub(crate) fn serve_all<R: AllocGlobal + Threads + Wait + Sync>(rt: &R) -> Result<Served, Stop>
    ensures { IfOk result (λ served. served.tags.got ≡ served.tags.back + served.tags.held + served.tags.posted) }
{
    let options = Options::new(3, THREADS).with_reserved(2);
    let (pool, hands) = Pool::open(rt.alloc(), options, 0u64).map_err(Stop::Open)?;
    let requests = AtomicU64::new(0);
    let hands = serve_by_threads(rt, &pool, hands, &requests);
    let (pool, hands) = match Pool::resize(rt.alloc(), pool, hands, 18) {
        Ok(resized) => resized,
        Err(fault) => return Err(Stop::Resize(fault.cause)),
    };
    let hands = serve_by_threads(rt, &pool, hands, &requests);
    match Pool::gather(pool, hands) {
        Ok(tags) => Ok(Served {
            requests: requests.load(SeqCst),
            tags,
        }),
        Err(fault) => Err(Stop::Gather(fault.cause)),
    }
}

/// Each hand goes to a thread of its own, and comes back.
fn serve_by_threads<R: Threads + Wait + Sync>(
    rt: &R,
    pool: &Pool<u64>,
    mut hands: Vec<Hand<u64>>,
    requests: &AtomicU64,
) -> Vec<Hand<u64>>
    requires { All (IsHandOf pool.now) hands.items }
    ensures { All (IsHandOf pool.now) result.items }
{
    thread::for_each_mut(
        rt,
        hands.as_mut_slice(),
        THREADS as usize,
        &|number, hand| { serve(rt, pool, hand, number as u64, requests) },
    );
    hands
}

/// One thread's requests, one after another.
fn serve<W: Wait>(rt: &W, pool: &Pool<u64>, hand: &mut Hand<u64>, thread: u64, requests: &AtomicU64)
    requires { IsHandOf pool.now hand.old }
    ensures { IsHandOf pool.now hand.new }
{
    pool.place(hand);
    for number in 0..REQUESTS {
        let request = REQUESTS * (thread & 1) + number;
        if let Ok(found) = serve_one(rt, pool, hand, request) {
            if found == request {
                requests.fetch_add(1, SeqCst);
            }
        }
    }
}

/// A request takes a tag, waits if none is free, and fills the tag's slot; its completion reads the slot and clears the tag.
fn serve_one<W: Wait>(
    rt: &W,
    pool: &Pool<u64>,
    hand: &mut Hand<u64>,
    request: u64,
) -> Result<u64, TagFault>
    requires { IsHandOf pool.now hand.old }
    ensures hand { IsHandOf pool.now hand.new }
    ensures own { IfOk result (λ found. found ≡ request) }
{
    let tag = pool.get_blocking(rt, hand)?.answer;
    pool.write(hand, tag, request)?;
    let found = pool.read(hand, tag)?;
    pool.clear(hand, tag)?;
    Ok(found)
}
