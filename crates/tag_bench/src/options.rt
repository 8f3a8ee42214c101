//! What the command line asks for.
use crate::traffic::{TRAFFIC, Traffic};
use clap::ArgMatches;
use std::alloc::{AllocError, Global};

/// Rounds of each thread in a run that only shows that all works, and in one that is measured.
const FEW: u32 = 2_000;

const MANY: u32 = 2_000_000;

/// What can be run.
#[derive(Clone, Copy)]
pub(crate) enum Workload {
    /// The search over plain words.
    Plain,
    /// Claims and clears of the shared map.
    Map,
    /// Gets and clears over the shared map.
    Shared,
    /// The active count and the charge book.
    Wakes,
    /// Gets, touches and clears as drivers make them, over the shared map.
    Traffic(Traffic),
    /// Batches of tags of the shared map.
    Batch,
    /// The same over a queue: one of its workloads, or each.
    Queue(Option<Queued>),
    /// The same over a pool: one of these workloads, or each.
    Pool(Option<Traffic>),
    /// The same over a pool, where each thread has a cache: one of these workloads, or each.
    Cache(Option<Traffic>),
}

/// Each of them, in the order in which they run.
pub(crate) const WORKLOADS: [Workload; 12] = [
    Workload::Plain,
    Workload::Map,
    Workload::Shared,
    Workload::Wakes,
    Workload::Traffic(Traffic::Pair),
    Workload::Traffic(Traffic::Ring),
    Workload::Traffic(Traffic::Full),
    Workload::Traffic(Traffic::Handoff),
    Workload::Batch,
    Workload::Queue(None),
    Workload::Pool(None),
    Workload::Cache(None),
];

/// What can be run over a queue.
#[derive(Clone, Copy)]
pub(crate) enum Queued {
    /// Gets, touches and clears as drivers make them.
    Traffic(Traffic),
    /// Gets that wait.
    Waiters,
}

/// What is printed of each case.
#[derive(Clone, Copy, PartialEq, Eq)]
pub(crate) enum Show {
    /// What holds of it whatever the schedule.
    Facts,
    /// What it took.
    Times,
    /// What it took, as a JSON object.
    Json,
}

/// What the command line asks for.
#[derive(Drop)]
pub(crate) struct Options {
    /// What to run. None: each.
    pub workload: Option<Workload>,
    /// What to print.
    pub show: Show,
    /// Rounds of each thread in a run.
    pub rounds: u32,
    /// Tags of the map, 1 to 10,240. None: as the workload has it.
    pub depth: Option<u32>,
    /// Counts of threads to be tried, each 1 to 16.
    pub threads: Vec<u32>,
}

/// The options that a command line gives.
pub(crate) fn read(alloc: Global, matches: &ArgMatches) -> Result<Options, AllocError> {
    let (workload, chosen) = match matches.subcommand() {
        Some(("queue", chosen)) => (Some(Workload::Queue(queued_of(chosen))), chosen),
        Some(("pool", chosen)) => (Some(Workload::Pool(driven_by(chosen))), chosen),
        Some(("cache", chosen)) => (Some(Workload::Cache(driven_by(chosen))), chosen),
        Some((name, chosen)) => (workload_of(name), chosen),
        None => (None, matches),
    };
    let show = if chosen.get_flag("json") {
        Show::Json
    } else if chosen.get_flag("measure") {
        Show::Times
    } else {
        Show::Facts
    };
    let few = if show == Show::Facts { FEW } else { MANY };
    let threads = match chosen.get_one::<u32>("threads") {
        Some(count) => vec![in alloc; count]?,
        None => vec![in alloc; 1, 2, 4]?,
    };
    Ok(Options {
        workload,
        show,
        rounds: chosen.get_one::<u32>("rounds").unwrap_or(few),
        depth: chosen.get_one::<u32>("depth"),
        threads,
    })
}

/// The workload of this name.
fn workload_of(name: &str) -> Option<Workload> {
    match name {
        "plain" => Some(Workload::Plain),
        "map" => Some(Workload::Map),
        "shared" => Some(Workload::Shared),
        "wakes" => Some(Workload::Wakes),
        "batch" => Some(Workload::Batch),
        _ => traffic_of(name).map(Workload::Traffic),
    }
}

/// The workload of a queue that was named.
fn queued_of(chosen: &ArgMatches) -> Option<Queued> {
    match chosen.get_str("workload")? {
        "waiters" => Some(Queued::Waiters),
        name => traffic_of(name).map(Queued::Traffic),
    }
}

/// The workload of a pool or of caches that was named.
fn driven_by(chosen: &ArgMatches) -> Option<Traffic> {
    traffic_of(chosen.get_str("workload")?)
}

/// The traffic of this name.
fn traffic_of(name: &str) -> Option<Traffic> {
    TRAFFIC.into_iter().find(|traffic| traffic.name() == name)
}
