//! The workload `handoff`: one thread gets each tag, and the next one clears it.
use crate::allocator::TagAllocator;
use crate::jobs::{Job, Plan};
use crate::rounds::win;
use std::alloc::{AllocError, Global};
use std::sync::atomic::AtomicU64;
use std::sync::atomic::Ordering::SeqCst;
use std::thread;

/// Tags on their way from one thread to the next, at most.
const ROOM: usize = 64;

/// Looks at a cell before a thread lets others run.
const LOOKS: u32 = 1_000;

/// Times that a thread lets others run before it gives up.
const PATIENCE: u32 = 1_000_000;

/// What a cell has where no tag is in it. A tag stands there as its number and 1.
const EMPTY: u64 = 0;

/// Ways for tags, one from each thread of an even number to the next thread.
#[derive(Drop)]
pub(crate) struct Pipes {
    /// The cells of one way after those of another, each used in turn.
    cells: Vec<AtomicU64>,
}

impl Pipes {
    /// Ways for this number of threads.
    pub(crate) fn open(alloc: Global, threads: u32) -> Result<Pipes, AllocError> {
        let mut cells = Vec::new(alloc);
        for _ in 0..threads.min(64) as usize * ROOM {
            if cells.push(AtomicU64::new(EMPTY)).is_err() {
                return Err(AllocError);
            }
        }
        Ok(Pipes { cells })
    }

    /// Waits for this cell of a way and writes it, where it is empty and should be, or full and should be. What it had.
    fn exchange(&self, way: usize, round: u32, full: bool, new: u64) -> Option<u64> {
        let cell = self.cells.get((way % 64) * ROOM + round as usize % ROOM)?;
        for _ in 0..PATIENCE {
            for _ in 0..LOOKS {
                let found = cell.load(SeqCst);
                if (found != EMPTY) == full {
                    cell.store(new, SeqCst);
                    return Some(found);
                }
            }
            thread::yield_now();
        }
        None
    }

    /// Gets tags and sends each on.
    #[inline(never)]
    fn send<T: TagAllocator>(&self, tags: &T, hand: &mut T::Hand, index: usize, plan: Plan)
        requires { T.is_own tags.now hand.old }
        ensures { T.is_own tags.now hand.new }
    {
        let mut hint = plan.hint(index);
        for round in 0..plan.rounds {
            let Some(tag) = win(tags, hand, &mut hint, round) else {
                return;
            };
            tags.post(hand, tag);
            let Some(_) = self.exchange(index, round, false, u64::from(tag) + 1) else {
                return;
            };
        }
    }

    /// Takes the tags that come from the thread before this one, and clears each.
    #[inline(never)]
    fn receive<T: TagAllocator>(&self, tags: &T, hand: &mut T::Hand, index: usize, plan: Plan)
        requires { T.is_own tags.now hand.old }
        ensures { T.is_own tags.now hand.new }
    {
        let mut hint = plan.hint(index);
        let way = index - index % 2;
        for round in 0..plan.rounds {
            let Some(cell) = self.exchange(way, round, true, EMPTY) else {
                return;
            };
            let Ok(tag) = u32::try_from(cell.saturating_sub(1)) else {
                return;
            };
            if tags.take(hand, tag) {
                tags.touch(hand, tag, round);
                tags.clear(hand, &mut hint, tag);
            }
        }
    }
}

/// A thread of an even number gets tags and sends each on, and the next thread clears those that come.
impl<T: TagAllocator> Job<T> for Pipes {
    fn work(&self, tags: &T, hand: &mut T::Hand, index: usize, plan: Plan) {
        if index % 2 == 0 {
            self.send(tags, hand, index, plan);
        } else {
            self.receive(tags, hand, index, plan);
        }
    }
}
