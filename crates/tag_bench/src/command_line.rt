//! The command line: a subcommand for each workload, and their options.
use crate::options::{WORKLOADS, Workload};
use crate::traffic::Traffic;
use clap::builder::ValueParser;
use clap::{Arg, ArgAction, Command};
use std::alloc::{AllocError, Global};

/// How many tags there are, where a workload runs at several depths.
const BY_DEPTHS: &str = "Tags of the map [default: 64, 1024 and 10240 in turn]";

/// The workloads of a queue, as the command line has them.
const QUEUED: [&str; 5] = ["pair", "ring", "full", "handoff", "waiters"];

/// Those of a pool, and of caches.
const DRIVEN: [&str; 4] = ["pair", "ring", "full", "handoff"];

/// The command line that the program takes.
pub(crate) fn command<'a>(alloc: Global) -> Result<Command<'a>, AllocError> {
    let mut command = program(alloc)?;
    for workload in WORKLOADS {
        command = command.subcommand(subcommand(alloc, workload)?)?;
    }
    Ok(command)
}

fn program<'a>(alloc: Global) -> Result<Command<'a>, AllocError> {
    Command::new(alloc, "tag_bench")
        .about(
            "Measures the library, workload by workload; without an option it shows that each works",
        )
        .arg(measure(alloc))?
        .arg(json(alloc))?
        .arg(rounds(alloc))
}

fn subcommand<'a>(alloc: Global, workload: Workload) -> Result<Command<'a>, AllocError> {
    match workload {
        Workload::Plain => plain(alloc),
        Workload::Map => map(alloc),
        Workload::Shared => shared(alloc),
        Workload::Wakes => wakes(alloc),
        Workload::Traffic(traffic) => driver(alloc, traffic),
        Workload::Batch => batch(alloc),
        Workload::Queue(_) => queue(alloc),
        Workload::Pool(_) => pool(alloc),
        Workload::Cache(_) => cache(alloc),
    }
}

fn plain<'a>(alloc: Global) -> Result<Command<'a>, AllocError> {
    Command::new(alloc, "plain")
        .about("One caller alone gets a tag and clears it, over plain words")
        .arg(depth(alloc, BY_DEPTHS))
}

fn map<'a>(alloc: Global) -> Result<Command<'a>, AllocError> {
    Command::new(alloc, "map")
        .about("Callers claim tags of the shared map by their numbers, and clear them")
        .arg(threads(alloc))
}

fn shared<'a>(alloc: Global) -> Result<Command<'a>, AllocError> {
    Command::new(alloc, "shared")
        .about("Callers get tags of the shared map, and clear them")
        .arg(depth(alloc, "Tags of the map [default: 1024]"))?
        .arg(threads(alloc))
}

fn wakes<'a>(alloc: Global) -> Result<Command<'a>, AllocError> {
    Command::new(alloc, "wakes")
        .about("Clears look at the active count, and count completions")
        .arg(threads(alloc))
}

fn driver<'a>(alloc: Global, traffic: Traffic) -> Result<Command<'a>, AllocError> {
    // The borrow checker wants both at the command's lifetime.
    let (name, about): (&'a str, &'a str) = (traffic.name(), traffic.about());
    Command::new(alloc, name)
        .about(about)
        .arg(depth(alloc, BY_DEPTHS))?
        .arg(threads(alloc))
}

fn batch<'a>(alloc: Global) -> Result<Command<'a>, AllocError> {
    Command::new(alloc, "batch")
        .about("Each thread gets up to 8 tags side by side, and gives them back at once")
        .arg(depth(alloc, BY_DEPTHS))?
        .arg(threads(alloc))
}

fn queue<'a>(alloc: Global) -> Result<Command<'a>, AllocError> {
    Command::new(alloc, "queue")
        .about("pair, ring, full and handoff over a queue, and gets that wait for a tag")
        .arg(one_of(alloc, &QUEUED))?
        .arg(depth(
            alloc,
            "Tags of the queue [default: 64, 1024 and 10240 in turn; of waiters half as many as threads]",
        ))?
        .arg(threads(alloc))
}

fn pool<'a>(alloc: Global) -> Result<Command<'a>, AllocError> {
    Command::new(alloc, "pool")
        .about("pair, ring, full and handoff over a pool without reserved tags")
        .arg(one_of(alloc, &DRIVEN))?
        .arg(depth(alloc, BY_DEPTHS))?
        .arg(threads(alloc))
}

fn cache<'a>(alloc: Global) -> Result<Command<'a>, AllocError> {
    Command::new(alloc, "cache")
        .about("pair, ring, full and handoff over a pool, where each thread keeps up to 8 tags")
        .arg(one_of(alloc, &DRIVEN))?
        .arg(depth(alloc, BY_DEPTHS))?
        .arg(threads(alloc))
}

fn measure<'a>(alloc: Global) -> Arg<'a> {
    Arg::new(alloc, "measure")
        .long("measure")
        .global(true)
        .action(ArgAction::SetTrue)
        .help(
            "Prints nanoseconds per operation of one thread: median, least and most of seven runs",
        )
}

fn json<'a>(alloc: Global) -> Arg<'a> {
    Arg::new(alloc, "json")
        .long("json")
        .global(true)
        .action(ArgAction::SetTrue)
        .help("As --measure, with a JSON object a line")
}

fn rounds<'a>(alloc: Global) -> Arg<'a> {
    Arg::new(alloc, "rounds")
        .long("rounds")
        .global(true)
        .value_name("N")
        .value_parser(ValueParser::unsigned(1, 1_000_000_000))
        .help("Operations of each thread in a run [default: 2000, or 2000000 for times]")
}

fn depth<'a>(alloc: Global, help: &'a str) -> Arg<'a> {
    Arg::new(alloc, "depth")
        .long("depth")
        .value_name("N")
        .value_parser(ValueParser::unsigned(1, 10_240))
        .help(help)
}

fn threads<'a>(alloc: Global) -> Arg<'a> {
    Arg::new(alloc, "threads")
        .long("threads")
        .value_name("N")
        .value_parser(ValueParser::unsigned(1, 16))
        .help("Threads at once [default: 1, 2 and 4 in turn]")
}

fn one_of<'a>(alloc: Global, workloads: &'static [&'static str]) -> Arg<'a> {
    Arg::new(alloc, "workload")
        .value_parser(ValueParser::Names(workloads))
        .help("Runs this workload alone")
}
