//! The workloads `pair`, `ring`, `full` and `handoff`: threads use tags as drivers do.
use crate::allocator::TagAllocator;
use crate::jobs::{Job, Plan, carry_out};
use crate::measure::{Failed, print_case};
use crate::options::Options;
use crate::pipes::Pipes;
use crate::rounds::{Pairs, Ring};
use std::alloc::{AllocError, Global};
use std::fmt::Display;
use std::thread::Threads;
use std::time::{Clock, CpuClock};

/// How many tags there are, where no count is asked for.
const DEPTHS: [u32; 3] = [64, 1_024, 10_240];

/// Tags that each thread holds in `ring`.
const HELD: u32 = 32;

/// How tags are used.
#[derive(Clone, Copy)]
pub(crate) enum Traffic {
    /// A get, a touch of the slot and a clear.
    Pair,
    /// Each thread holds 32 tags, clears the oldest and gets another.
    Ring,
    /// The same, where the threads hold all tags between them.
    Full,
    /// One thread gets and posts, another takes and clears.
    Handoff,
}

/// Each of them, in the order in which they run.
pub(crate) const TRAFFIC: [Traffic; 4] = [
    Traffic::Pair,
    Traffic::Ring,
    Traffic::Full,
    Traffic::Handoff,
];

impl Traffic {
    /// As the command line has it.
    pub(crate) fn name(self) -> &'static str {
        match self {
            Traffic::Pair => "pair",
            Traffic::Ring => "ring",
            Traffic::Full => "full",
            Traffic::Handoff => "handoff",
        }
    }

    /// What the command line's help says of it.
    pub(crate) fn about(self) -> &'static str {
        match self {
            Traffic::Pair => "Each thread gets a tag, touches its slot and clears it",
            Traffic::Ring => "Each thread holds up to 32 tags, clears the oldest and gets another",
            Traffic::Full => "As ring, where the threads hold all tags between them",
            Traffic::Handoff =>
                "One thread gets tags and posts them, another takes and clears them",
        }
    }
}

/// Runs each case of one workload. The prefix stands before its name.
pub(crate) fn run<
    R: AllocGlobal + Threads + Sync + Print + Clock + CpuClock,
    T: TagAllocator + Sync,
>(rt: &R, options: &Options, prefix: &str, traffic: Traffic) -> Result<(), Failed>
where
    T::Hand: Send + Drop,
{
    let name = traffic.name();
    for &plan in plans(rt.alloc(), options)?.iter() {
        run_plan::<R, T>(rt, options, format_args!("{prefix}{name}"), plan, traffic)?;
    }
    Ok(())
}

/// Runs one case, with the job that its workload has. `handoff` wants an even number of threads.
fn run_plan<R: AllocGlobal + Threads + Sync + Print + Clock + CpuClock, T: TagAllocator + Sync>(
    rt: &R,
    options: &Options,
    workload: impl Display + Drop,
    plan: Plan,
    traffic: Traffic,
) -> Result<(), Failed>
where
    T::Hand: Send + Drop,
{
    let share = plan.depth / plan.threads.max(1);
    match traffic {
        Traffic::Pair => run_case::<R, T, Pairs>(rt, options, workload, plan, &Pairs),
        Traffic::Ring => {
            let hold = share.min(HELD);
            run_case::<R, T, Ring>(rt, options, workload, plan, &Ring { hold })
        }
        Traffic::Full => run_case::<R, T, Ring>(rt, options, workload, plan, &Ring { hold: share }),
        Traffic::Handoff if plan.threads % 2 != 0 => Ok(()),
        Traffic::Handoff => {
            let pipes = Pipes::open(rt.alloc(), plan.threads)?;
            let winners = plan.threads / 2;
            run_case::<R, T, Pipes>(rt, options, workload, Plan { winners, ..plan }, &pipes)
        }
    }
}

/// Each count of threads at each depth, with hints apart and with all hints from 0, where each thread has a share of
/// the tags.
pub(crate) fn plans(alloc: Global, options: &Options) -> Result<Vec<Plan>, AllocError> {
    let mut plans = Vec::new(alloc);
    match options.depth {
        Some(depth) => add_plans(&mut plans, options, depth)?,
        None => {
            for depth in DEPTHS {
                add_plans(&mut plans, options, depth)?;
            }
        }
    }
    Ok(plans)
}

fn add_plans(plans: &mut Vec<Plan>, options: &Options, depth: u32) -> Result<(), AllocError> {
    for apart in [true, false] {
        for &threads in options.threads.iter() {
            let share = depth / threads.max(1);
            if share > 0 {
                plans.push(Plan {
                    depth,
                    threads,
                    winners: threads,
                    stride: if apart { share } else { 0 },
                    rounds: options.rounds,
                })?;
            }
        }
    }
    Ok(())
}

/// Has a job done as planned, and prints the line of the case.
pub(crate) fn run_case<
    R: AllocGlobal + Threads + Sync + Print + Clock + CpuClock,
    T: TagAllocator + Sync,
    J: Job<T> + Sync,
>(
    rt: &R,
    options: &Options,
    workload: impl Display + Drop,
    plan: Plan,
    job: &J,
) -> Result<(), Failed>
where
    T::Hand: Send + Drop,
{
    let outcome = carry_out::<R, T, J>(rt, plan, job)?;
    let hints = if plan.stride == 0 { "from 0" } else { "apart" };
    let depth = plan.depth;
    let even = outcome.even;
    print_case(
        rt,
        options.show,
        workload,
        format_args!("hints {hints}, depth {depth}"),
        plan.threads,
        outcome.times,
        format_args!("even={even}"),
    )?;
    Ok(())
}
