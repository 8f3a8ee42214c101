//! What a case took, and its line.
use crate::options::Show;
use std::alloc::AllocError;
use std::fmt::Display;
use std::time::{Clock, CpuClock, Duration, Instant};
use std::{fmt, io};
use tag_core::OpenFault;
use tag_layout::LayoutFault;
use tag_pool::OpenFault as PoolFault;
use tag_queue::QueueOpenFault;
use wake_book::BookFault;

/// Runs of which the median is taken.
pub(crate) const RUNS: usize = 7;

/// Why a workload ended early.
#[derive(Debug, Drop)]
pub(crate) enum Failed {
    /// There was no memory for it.
    Memory,
    /// The library has no map, pool, queue or book of these sizes.
    Sizes,
    /// A caller, a hand or a teller didn't come back from its thread.
    Missing,
    /// The clock or the output failed.
    Io,
}

impl From<AllocError> for Failed {
    fn from(_error: AllocError) -> Failed {
        Failed::Memory
    }
}

impl From<LayoutFault> for Failed {
    fn from(_fault: LayoutFault) -> Failed {
        Failed::Sizes
    }
}

impl From<OpenFault> for Failed {
    fn from(fault: OpenFault) -> Failed {
        match fault {
            OpenFault::Memory => Failed::Memory,
            _ => Failed::Sizes,
        }
    }
}

impl From<QueueOpenFault> for Failed {
    fn from(fault: QueueOpenFault) -> Failed {
        match fault {
            QueueOpenFault::Memory => Failed::Memory,
            _ => Failed::Sizes,
        }
    }
}

impl From<PoolFault> for Failed {
    fn from(fault: PoolFault) -> Failed {
        match fault {
            PoolFault::Memory => Failed::Memory,
            _ => Failed::Sizes,
        }
    }
}

impl From<BookFault> for Failed {
    fn from(fault: BookFault) -> Failed {
        match fault {
            BookFault::Memory => Failed::Memory,
            _ => Failed::Sizes,
        }
    }
}

impl From<io::Error> for Failed {
    fn from(_error: io::Error) -> Failed {
        Failed::Io
    }
}

/// What one run took.
#[derive(Clone, Copy)]
pub(crate) struct Run {
    /// By the clock.
    pub clock: Duration,
    /// Processor time of all threads together.
    pub processor: Duration,
}

impl Run {
    /// A run that took no time.
    pub(crate) const ZERO: Run = Run {
        clock: Duration::ZERO,
        processor: Duration::ZERO,
    };
}

/// Both clocks as a run begins.
#[derive(Clone, Copy)]
pub(crate) struct Watch {
    start: Instant,
    processor: Duration,
}

impl Watch {
    /// A run begins.
    pub(crate) fn start(rt: &(impl Clock + CpuClock)) -> io::Result<Watch> {
        let processor = rt.process_cpu_time()?;
        let start = Instant::now(rt)?;
        Ok(Watch { start, processor })
    }

    /// What the run took.
    pub(crate) fn stop(self, rt: &(impl Clock + CpuClock)) -> io::Result<Run> {
        let clock = self.start.elapsed(rt)?;
        let processor = rt.process_cpu_time()?.saturating_sub(self.processor);
        Ok(Run { clock, processor })
    }
}

/// What the runs of one case took.
#[derive(Clone, Copy)]
pub(crate) struct Times {
    /// Of each run.
    pub runs: [Run; RUNS],
    /// Operations of one thread in one run.
    pub operations: u64,
}

/// Hundredths of a nanosecond.
#[derive(Clone, Copy)]
struct Hundredths(u64);

impl Display for Hundredths {
    fn fmt<W: fmt::Write>(&self, f: &mut fmt::Formatter<W>) -> fmt::Result {
        let whole = self.0 / 100;
        let part = self.0 % 100;
        write!(f, "{whole}.{part:02}")
    }
}

impl Times {
    /// One operation of one thread, in a run that took this long. A run of more than a day counts as a day.
    fn per_operation(self, run: Duration) -> Hundredths {
        let seconds = run.as_secs().min(86_400);
        let nanoseconds = seconds * 1_000_000_000 + u64::from(run.subsec_nanos());
        Hundredths(nanoseconds * 100 / self.operations.max(1))
    }

    /// The runs by the clock, shortest first.
    fn clocks(self) -> [Duration; RUNS] {
        let mut clocks = self.runs.map(|run| run.clock);
        clocks.sort_unstable();
        clocks
    }

    /// Processor time of one thread, in the run that is the median.
    fn processor(self, threads: u32) -> Duration {
        let mut all = self.runs.map(|run| run.processor);
        all.sort_unstable();
        all[RUNS / 2] / threads.max(1)
    }
}

/// Prints a line of one case: what an operation of one thread took, or what holds of the case.
pub(crate) fn print_case(
    rt: &impl Print,
    show: Show,
    workload: impl Display + Drop,
    name: impl Display + Drop,
    threads: u32,
    times: Times,
    facts: impl Display + Drop,
) -> io::Result<()> {
    let clocks = times.clocks();
    let least = times.per_operation(clocks[0]);
    let median = times.per_operation(clocks[RUNS / 2]);
    let most = times.per_operation(clocks[RUNS - 1]);
    let processor = times.per_operation(times.processor(threads));
    match show {
        Show::Facts => println!(rt; "{workload} {name}, threads={threads}: {facts}"),
        Show::Times => println!(rt;
            "{workload} {name}, threads={threads}: {median} ns ({least} to {most}), processor {processor} ns"
        ),
        Show::Json => println!(rt;
            "{{\"workload\":\"{workload}\",\"case\":\"{name}\",\"threads\":{threads},\"ns\":{median},\"least\":{least},\"most\":{most},\"processor\":{processor}}}"
        ),
    }
}
