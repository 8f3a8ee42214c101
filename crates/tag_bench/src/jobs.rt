//! Threads at work on tags that they share.
ghost use Rattle.std.specs.Prelude.{All};

use crate::allocator::TagAllocator;
use crate::measure::{Failed, RUNS, Run, Times, Watch};
use std::thread;
use std::thread::Threads;
use std::time::{Clock, CpuClock};
use tag_search::Hint;

/// What each thread does in a run.
pub(crate) trait Job<T: TagAllocator> {
    /// The work of the thread at this index.
    fn work(&self, tags: &T, hand: &mut T::Hand, index: usize, plan: Plan)
        requires { T.is_own tags.now hand.old }
        ensures { T.is_own tags.now hand.new };
}

/// On what tags a job is done, by whom and how often.
#[derive(Clone, Copy)]
pub(crate) struct Plan {
    /// How many tags there are.
    pub depth: u32,
    /// Threads at work.
    pub threads: u32,
    /// Those of them that win tags.
    pub winners: u32,
    /// Tags from where one thread begins to where the next one does.
    pub stride: u32,
    /// Tags that each of the winners tries to win in a run.
    pub rounds: u32,
}

impl Plan {
    /// The tag at which the thread at this index, one of at most 64, begins.
    pub(crate) fn first(self, index: usize) -> u32 {
        ((index % 64) as u32).wrapping_mul(self.stride)
    }

    /// A hint at that tag.
    pub(crate) fn hint(self, index: usize) -> Hint {
        Hint {
            at: self.first(index),
            round_robin: false,
        }
    }
}

/// What came of a plan.
#[derive(Clone, Copy)]
pub(crate) struct Outcome {
    /// What its runs took, per tag that one winner won.
    pub times: Times,
    /// Whether all tags won were given back.
    pub even: bool,
}

/// Has a job done on new tags, several times.
pub(crate) fn carry_out<
    R: AllocGlobal + Threads + Sync + Clock + CpuClock,
    T: TagAllocator + Sync,
    J: Job<T> + Sync,
>(rt: &R, plan: Plan, job: &J) -> Result<Outcome, Failed>
where
    T::Hand: Send + Drop,
{
    let (tags, mut hands) = T::open(rt.alloc(), plan.depth, plan.threads)?;
    // Tags end by a gather alone, also where the clock failed.
    let runs = time_runs(rt, &tags, &mut hands, plan, job);
    let totals = tags.gather(hands)?;
    let runs = runs?;
    let shares = RUNS as u64 * u64::from(plan.winners.max(1));
    Ok(Outcome {
        times: Times {
            runs,
            operations: totals.got / shares,
        },
        even: totals.got == totals.back,
    })
}

/// Has each hand begin in its own part of the tags, before a run.
#[derive(Drop)]
struct Placing;

impl<T: TagAllocator> Job<T> for Placing {
    fn work(&self, tags: &T, hand: &mut T::Hand, _index: usize, _plan: Plan) {
        tags.place(hand);
    }
}

fn time_runs<R: Threads + Sync + Clock + CpuClock, T: TagAllocator + Sync, J: Job<T> + Sync>(
    rt: &R,
    tags: &T,
    hands: &mut Vec<T::Hand>,
    plan: Plan,
    job: &J,
) -> Result<[Run; RUNS], Failed>
where
    T::Hand: Send,
    requires own { All (T.is_own tags.now) hands.old.items }
    ensures { All (T.is_own tags.now) hands.new.items }
{
    let mut runs = [Run::ZERO; RUNS];
    for run in runs.iter_mut() {
        if plan.stride > 0 {
            work_all(rt, tags, hands, Plan { threads: 1, ..plan }, &Placing);
        }
        let watch = Watch::start(rt)?;
        work_all(rt, tags, hands, plan, job);
        *run = watch.stop(rt)?;
    }
    Ok(runs)
}

/// All hands work, in as many threads at once as planned.
fn work_all<R: Threads + Sync, T: TagAllocator + Sync, J: Job<T> + Sync>(
    rt: &R,
    tags: &T,
    hands: &mut Vec<T::Hand>,
    plan: Plan,
    job: &J,
)
where
    T::Hand: Send,
    requires { All (T.is_own tags.now) hands.old.items }
    ensures { All (T.is_own tags.now) hands.new.items }
{
    thread::for_each_mut(
        rt,
        hands.as_mut_slice(),
        plan.threads.max(1) as usize,
        &|index, hand| { job.work(tags, hand, index, plan) },
    );
}
