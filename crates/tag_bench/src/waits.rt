//! The workload `waiters`: more threads than tags of a queue, so that gets wait.
use crate::jobs::{Job, Plan, carry_out};
use crate::measure::{Failed, print_case};
use crate::options::Options;
use std::sync::Wait;
use std::thread::Threads;
use std::time::{Clock, CpuClock};
use tag_queue::{Queue, QueueHand, Ring};

/// Runs each case. Where no count of tags is asked for, there are half as many as threads, and at least one.
pub(crate) fn run<R: AllocGlobal + Threads + Wait + Sync + Print + Clock + CpuClock>(
    rt: &R,
    options: &Options,
) -> Result<(), Failed> {
    for &threads in options.threads.iter() {
        let depth = options.depth.unwrap_or(threads / 2).max(1);
        let plan = Plan {
            depth,
            threads,
            winners: threads,
            stride: 0,
            rounds: options.rounds,
        };
        let outcome = carry_out::<R, Queue<u64>, Waiters<R>>(rt, plan, &Waiters { rt })?;
        let even = outcome.even;
        print_case(
            rt,
            options.show,
            "queue waiters",
            format_args!("depth {depth}"),
            threads,
            outcome.times,
            format_args!("even={even}"),
        )?;
    }
    Ok(())
}

/// Each thread gets a tag, waiting for one where it must, touches its slot and clears it.
#[derive(Drop)]
struct Waiters<'a, R> {
    rt: &'a R,
}

impl<R: Wait + Sync> Job<Queue<u64>> for Waiters<'_, R> {
    #[inline(never)]
    fn work(&self, queue: &Queue<u64>, hand: &mut QueueHand<u64>, _index: usize, plan: Plan) {
        for round in 0..plan.rounds {
            let Ok(tag) = queue.get_blocking(self.rt, hand) else {
                return;
            };
            // Neither is refused a tag that the hand holds.
            let _ = queue.write(hand, tag, u64::from(round));
            let _ = queue.clear::<Ring>(hand, tag);
        }
    }
}
