//! What the threads of a play do.
ghost use Rattle.std.specs.Prelude.{◌≡◌, ◌<◌, true, IfOk};
ghost use Rattle.crossbeam_queue.specs.Passes.{view, IsPassOf, ruled_capacity};
ghost use Rattle.refusals.specs.Refusals.{RefusesBy};
ghost use Rattle.tag_pool.specs.Hands.{total_of};
ghost use Rattle.tag_queue.specs.Hands.{IsHandOf, pool_of};
ghost use Rattle.tag_queue.specs.Refusals.{blocking_checks};
ghost use Rattle.loop_device.specs.Completing.{ServesPopped};
ghost use Rattle.loop_device.specs.Submitting.{PostsLine, SubmitsAs, SubmitsShare};
ghost use Rattle.loop_device.specs.Working.{clean, added, noted, begins, ends};

use crate::device::Device;
use crate::device_queue::{Closing, Drained, Popped, Tagged, Worker, pop, push};
use crate::fault::PlayFault;
use crate::gate::Gate;
use crate::io::Log;
use crate::request::{complete, finish};
use crossbeam_queue::Pass;
use std::sync::Wait;
use std::sync::atomic::Ordering::SeqCst;
use std::thread;
use tag_queue::{Queue, QueueHand, WaitFault};

/// Faults that threads ran into and that the store's history does not show.
#[derive(Clone, Copy, Debug, PartialEq, Eq)]
pub(crate) struct Faults {
    /// Memory ran out for a line, or a thread could not be started.
    pub(crate) memory: bool,
    /// A tag was handed on that is not posted or has no I/O line in its slot.
    pub(crate) spurious: bool,
}

impl Faults {
    /// No faults so far.
    pub(crate) fn none() -> Faults
        ensures { result ≡ clean }
    {
        Faults {
            memory: false,
            spurious: false,
        }
    }

    /// Adds the faults of another thread.
    pub(crate) fn add(&mut self, other: Faults)
        ensures { self.new ≡ added self.old other }
    {
        self.memory |= other.memory;
        self.spurious |= other.spurious;
    }

    /// Notes what became of one line. A line that was not submitted is missing from the history.
    fn note(&mut self, done: Result<u64, PlayFault>)
        ensures { self.new ≡ noted self.old done }
    {
        match done {
            Err(PlayFault::Memory) => self.memory = true,
            Err(PlayFault::Spurious) => self.spurious = true,
            _ => {}
        }
    }
}

/// What a thread returns.
#[derive(Drop)]
pub(crate) struct Worked {
    pub(crate) hand: QueueHand<u64>,
    pub(crate) faults: Faults,
}

/// Completes what comes through the queue, until a pop finds nothing after the flag was read set.
pub(crate) fn complete_all<B: Tagged, G: Gate, W: Wait>(
    rt: &W,
    log: &Log,
    gate: &G,
    device: &Device<B>,
    mut hand: QueueHand<u64>,
    mut pass: Pass<u32, Worker>,
) -> (Worked, Drained, Pass<u32, Worker>)
    requires hand { IsHandOf device.now.tags hand }
    requires pass { IsPassOf device.now.queue pass }
    ensures hand { IsHandOf device.now.tags result.0.hand }
    ensures served { ServesPopped device.now.tags log.now.ios.items
        (begins hand (view pass)) (ends result.0 (view result.2)) }
    ensures drained { result.1.closing.seen ≡ true }
{
    let mut faults = Faults::none();
    for _ in rt.forever() {
        // The flag is read first, so that the pop finds what was pushed before it was set.
        let closing = Closing::read(&device.closed);
        match pop(rt, &device.queue, &mut pass, closing) {
            Popped::Tag(tag) => {
                let done = complete(rt, &device.tags, &mut hand, tag, log, &device.store, gate);
                faults.note(done);
            }
            Popped::Empty => thread::yield_now(),
            Popped::Last(drained) => return (Worked { hand, faults }, drained, pass),
        }
    }
    unreachable!()
}

/// Submits this thread's share of the I/O lines in order: number `number` of `submitters` threads, counted from 0, has
/// every `submitters`-th line, starting with the line at index `number`. If a thread could not be started, it leaves out
/// the rest and notes a want of memory.
pub(crate) fn submit_all<B: Tagged, G: Gate, W: Wait>(
    rt: &W,
    log: &Log,
    gate: &G,
    device: &Device<B>,
    mut hand: QueueHand<u64>,
    mut pass: Pass<u32, Worker>,
    number: usize,
    submitters: usize,
) -> (Worked, Pass<u32, Worker>)
    requires hand { IsHandOf device.now.tags hand }
    requires pass { IsPassOf device.now.queue pass }
    requires submitter { (view pass).submits ≡ true }
    requires total { total_of (pool_of device.now.tags) ≡ B.total }
    requires submitters { 0 < submitters }
    ensures hand { IsHandOf device.now.tags result.0.hand }
    ensures submitted { SubmitsShare device.now.tags (ruled_capacity device.now.queue) log.now.ios.items number submitters
        (begins hand (view pass)) (ends result.0 (view result.1)) }
{
    let mut faults = Faults::none();
    for (index, io) in log.ios.iter().enumerate() {
        if index % submitters != number {
            continue;
        }
        if device.stopped.load(SeqCst) {
            faults.memory = true;
            return (Worked { hand, faults }, pass);
        }
        let done = submit(rt, log, gate, device, &mut hand, &mut pass, io.line);
        faults.note(done);
    }
    (Worked { hand, faults }, pass)
}

/// Passes one line on to the completers, or completes it if the queue is full.
fn submit<B: Tagged, G: Gate, W: Wait>(
    rt: &W,
    log: &Log,
    gate: &G,
    device: &Device<B>,
    hand: &mut QueueHand<u64>,
    pass: &mut Pass<u32, Worker>,
    line: u64,
) -> Result<u64, PlayFault>
    requires hand { IsHandOf device.now.tags hand.old }
    requires pass { IsPassOf device.now.queue pass.old }
    requires submitter { (view pass.old).submits ≡ true }
    requires total { total_of (pool_of device.now.tags) ≡ B.total }
    ensures hand { IsHandOf device.now.tags hand.new }
    ensures pass { IsPassOf device.now.queue pass.new }
    ensures submitter { (view pass.new).submits ≡ true }
    ensures submits { SubmitsAs device.now.tags (ruled_capacity device.now.queue) log.now.ios.items line result
        (view pass.old) (view pass.new) hand.old hand.new }
{
    let Ok(tag) = post_line(rt, &device.tags, hand, line) else {
        return Err(PlayFault::Lost(line));
    };
    let Err(tag) = push(rt, &device.queue, pass, tag) else {
        gate.after_submit(line);
        return Ok(line);
    };
    let taken = device.tags.take(hand, tag);
    gate.after_submit(line);
    let Ok(()) = taken else {
        return Err(PlayFault::Spurious);
    };
    finish(rt, &device.tags, hand, tag, log, &device.store, gate)
}

/// Gets a tag, writes the line into its slot, and posts it.
fn post_line<W: Wait>(
    rt: &W,
    tags: &Queue<u64>,
    hand: &mut QueueHand<u64>,
    line: u64,
) -> Result<u32, WaitFault>
    requires hand { IsHandOf tags.now hand.old }
    ensures hand { IsHandOf tags.now hand.new }
    ensures tag { IfOk result (λ tag. tag < total_of (pool_of tags.now)) }
    ensures posts { IfOk result (λ tag. PostsLine tags.now line tag hand.old hand.new) }
    ensures refusals { RefusesBy (blocking_checks tags.now hand.old) (hand.new ≡ hand.old) result }
{
    let tag = tags.get_blocking(rt, hand)?;
    let _former = tags.write_held(hand, tag, line);
    let Ok(()) = tags.post(hand, tag) else {
        unreachable!()
    };
    Ok(tag)
}
