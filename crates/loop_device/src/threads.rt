//! The threads of a play: one for each hand, started and joined in one scope.
ghost use Rattle.std.specs.Prelude.{◌≡◌, ◌+◌, ◌<◌, ◌≤◌, All, false, IsTrue, is_some, vec_len, vec_capacity, IfOk, []};
ghost use Rattle.crossbeam_queue.specs.Passes.{view, IsPassOf, ruled_capacity};
ghost use Rattle.tag_pool.specs.Hands.{total_of};
ghost use Rattle.tag_queue.specs.Hands.{IsHandOf, pool_of};
ghost use Rattle.loop_device.specs.DeviceQueue.{worker};
ghost use Rattle.loop_device.specs.Runs.{IsFreshOf, Returns, HasRun};
ghost use Rattle.loop_device.specs.Promises.{AreJoined, HavePromised};

use crate::device::Device;
use crate::device_queue::{Completer, DeviceQueue, Submitter, Tagged, Worker};
use crate::gate::Gate;
use crate::io::Log;
use crate::setup::Setup;
use crate::workers::{Faults, Worked, complete_all, submit_all};
use crossbeam_queue::Pass;
use std::alloc::{AllocError, Global};
use std::sync::Wait;
use std::sync::atomic::Ordering::SeqCst;
use std::thread;
use std::thread::{Promise, PromisedHandle, Scope, Threads};
use tag_queue::{Queue, QueueHand};

/// A thread's promise to do its part of a play, and to return a hand of the play's tags.
#[derive(Clone, Copy)]
pub(crate) struct Part<'a> {
    tags: &'a Queue<u64>,
    log: &'a Log,
    setup: Setup,
    /// The thread's number among the submitters. A completer has none.
    number: Option<usize>,
}

impl<'a> Promise<Worked> for Part<'a> {
    ghost use Rattle.loop_device.specs.Runs.{Returns};

    ghost kept_by = { λ p worked. Returns p.tags.now p.setup p.log.now.ios.items p.number worked };
}

type Handle<'s> = PromisedHandle<Worked, Part<'s>>;

/// Carries out the log with the threads that the setup asks for, one for each hand: the first of them complete and the
/// others submit. All have ended when it returns. Returns the hands that came back: all but those of threads that could
/// not be started, which is a want of memory.
pub(crate) fn run_threads<B: Tagged + Send + Sync, G: Gate, R: Threads + Wait + Sync>(
    rt: &R,
    alloc: Global,
    log: &Log,
    gate: &G,
    device: &Device<B>,
    hands: Vec<QueueHand<u64>>,
    pass: Pass<u32, Worker>,
    setup: Setup,
) -> Result<(Vec<QueueHand<u64>>, Faults), AllocError>
    requires hands { All (IsFreshOf device.now.tags) hands.items }
    requires count { vec_len hands ≡ setup.completers + setup.submitters }
    requires pass { IsPassOf device.now.queue pass }
    requires total { total_of (pool_of device.now.tags) ≡ B.total }
    requires room { ruled_capacity device.now.queue ≡ setup.queue }
    requires submitters { 0 < setup.submitters }
    ensures hands { IfOk result (λ back. All (IsHandOf device.now.tags) back.0.items) }
    ensures run { IfOk result (λ back. back.1.memory ≡ false
        → HasRun device.now.tags setup log.now.ios.items back.0.items back.1) }
{
    thread::scope(
        thread::scope_env(),
        rt,
        |scope| -> Result<(Vec<QueueHand<u64>>, Faults), AllocError>
            requires { All (IsFreshOf device.now.tags) hands.items
                × (vec_len hands ≡ setup.completers + setup.submitters) × IsPassOf device.now.queue pass
                × (total_of (pool_of device.now.tags) ≡ B.total) × (ruled_capacity device.now.queue ≡ setup.queue)
                × (0 < setup.submitters) }
            ensures { IfOk result (λ back. All (IsHandOf device.entry.now.tags) back.0.items
                × (back.1.memory ≡ false
                → HasRun device.entry.now.tags setup log.entry.now.ios.items back.0.items back.1)) }
        {
            let mut handles = Vec::with_capacity(alloc, hands.len())?;
            let mut back = Vec::with_capacity(alloc, hands.len())?;
            let started = start_all(
                scope,
                rt,
                log,
                gate,
                device,
                hands,
                pass,
                setup,
                &mut handles,
            );
            if !started {
                device.stopped.store(true, SeqCst);
            }
            let mut faults = Faults {
                memory: !started,
                spurious: false,
            };
            let completers = setup.completers as usize;
            join_down_to(rt, completers, &mut handles, &mut back, &mut faults);
            device.closed.store(true, SeqCst);
            join_down_to(rt, 0, &mut handles, &mut back, &mut faults);
            Ok((back, faults))
        },
    )
}

/// Starts the completers and then the submitters, up to the first that can't be started. Returns whether all were.
fn start_all<'s, E, B: Tagged + Send + Sync, G: Gate, R: Wait + Sync>(
    scope: &Scope<'s, E>,
    rt: &'s R,
    log: &'s Log,
    gate: &'s G,
    device: &'s Device<B>,
    hands: Vec<QueueHand<u64>>,
    mut pass: Pass<u32, Worker>,
    setup: Setup,
    handles: &mut Vec<Handle<'s>>,
) -> bool
    requires hands { All (IsFreshOf device.now.tags) hands.items }
    requires pass { IsPassOf device.now.queue pass }
    requires total { total_of (pool_of device.now.tags) ≡ B.total }
    requires capacity { ruled_capacity device.now.queue ≡ setup.queue }
    requires submitters { 0 < setup.submitters }
    requires none { handles.old.items ≡ [] }
    requires room { vec_len hands ≤ vec_capacity handles.old }
    ensures handles { HavePromised device.now.tags setup log.now.ios.items handles.new.items }
    ensures len { vec_len handles.new ≤ vec_len hands }
    ensures all { IsTrue result → vec_len handles.new ≡ vec_len hands }
{
    for hand in hands {
        let number = handles.len().checked_sub(setup.completers as usize);
        let mine = pass_for(&device.queue, &mut pass, number.is_some());
        let part = Part {
            tags: &device.tags,
            log,
            setup,
            number,
        };
        let started = scope.spawn_with(
            part,
            move || -> Worked
                requires { IsFreshOf device.now.tags hand × IsPassOf device.now.queue mine
                    × (total_of (pool_of device.now.tags) ≡ B.total) × (ruled_capacity device.now.queue ≡ setup.queue)
                    × (0 < setup.submitters) × (view mine ≡ worker (is_some number) [] []) }
                ensures { Returns device.entry.now.tags setup log.entry.now.ios.items number result }
            { do_part(rt, log, gate, device, hand, mine, number, setup) },
        );
        let Ok(handle) = started else {
            return false;
        };
        handles.push_reserved(handle);
    }
    true
}

/// Does the part of one thread, which completes, or submits its share if it has a number among the submitters.
fn do_part<B: Tagged, G: Gate, W: Wait>(
    rt: &W,
    log: &Log,
    gate: &G,
    device: &Device<B>,
    hand: QueueHand<u64>,
    pass: Pass<u32, Worker>,
    number: Option<usize>,
    setup: Setup,
) -> Worked
    requires hand { IsFreshOf device.now.tags hand }
    requires pass { IsPassOf device.now.queue pass }
    requires begins { view pass ≡ worker (is_some number) [] [] }
    requires total { total_of (pool_of device.now.tags) ≡ B.total }
    requires room { ruled_capacity device.now.queue ≡ setup.queue }
    requires submitters { 0 < setup.submitters }
    ensures { Returns device.now.tags setup log.now.ios.items number result }
{
    match number {
        Some(number) => {
            let submitters = setup.submitters as usize;
            submit_all(rt, log, gate, device, hand, pass, number, submitters).0
        }
        None => complete_all(rt, log, gate, device, hand, pass).0,
    }
}

/// A pass of its own for one more thread, which may push if it is to submit.
fn pass_for<B: Tagged>(
    queue: &DeviceQueue<B>,
    pass: &mut Pass<u32, Worker>,
    submits: bool,
) -> Pass<u32, Worker>
    requires { IsPassOf queue.now pass.old }
    ensures pass { IsPassOf queue.now pass.new }
    ensures result { IsPassOf queue.now result }
    ensures begins { view result ≡ worker submits [] [] }
{
    if submits {
        queue.another::<Submitter>(pass)
    } else {
        queue.another::<Completer>(pass)
    }
}

/// Joins the threads that were started last, up to those that are to be left, and collects the hands and the faults
/// that they return.
fn join_down_to<'s, R: Threads>(
    rt: &R,
    left: usize,
    handles: &mut Vec<Handle<'s>>,
    back: &mut Vec<QueueHand<u64>>,
    faults: &mut Faults,
)
    requires { vec_len back.old + vec_len handles.old ≤ vec_capacity back.old }
    ensures joined { AreJoined handles.old.items handles.new.items back.old.items back.new.items faults.old faults.new }
    ensures left { vec_len handles.new ≤ left }
    ensures room { vec_len back.new + vec_len handles.new ≤ vec_capacity back.new }
{
    while handles.len() > left {
        let Some(handle) = handles.pop() else {
            break;
        };
        let worked = handle.join(rt);
        faults.add(worked.faults);
        back.push_reserved(worked.hand);
    }
}
