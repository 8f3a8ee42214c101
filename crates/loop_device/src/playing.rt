//! Plays a log: threads that share tags carry it out.
ghost use Rattle.std.specs.Prelude.{◌≡◌, ◌≢◌, ◌+◌, ◌<◌, ◌↔◌, All, length, IfOk, IfErr, OnOk};
ghost use Rattle.tag_pool.specs.Hands.{total_of};
ghost use Rattle.tag_queue.specs.Hands.{pool_of};
ghost use Rattle.loop_device.specs.History.{IsHistory};
ghost use Rattle.loop_device.specs.Playing.{IsPlayed, IsClean, IsJudged, NamesLine};
ghost use Rattle.loop_device.specs.Runs.{AreTagsFor, IsFreshOf, IsRun, SaysSeen};
ghost use Rattle.loop_device.specs.Setups.{IsLegal};
ghost use Rattle.loop_device.specs.Working.{clean};

use crate::device::Device;
use crate::device_queue::{DeviceQueue, Tagged};
use crate::fault::PlayFault;
use crate::gate::Gate;
use crate::io::{Done, Log};
use crate::judging::verdict;
use crate::report::Report;
use crate::setup::Setup;
use crate::store::Store;
use crate::threads::run_threads;
use crate::workers::Faults;
use std::alloc::Global;
use std::marker::Brand;
use std::sync::atomic::AtomicBool;
use std::sync::{Mutex, Wait};
use std::thread::Threads;
use tag_model::Totals;
use tag_queue::{MAX_CAP, Options, Queue, QueueHand};

/// Carries out each I/O line of the log once, in threads that share tags, and joins them all. `Setup` is reported
/// before anything runs, and of several other faults the first in the order Memory, Spurious, Twice, Lost, Totals.
/// Memory also means that a thread could not be started; Totals means that they are not one tag got and given back for
/// each line.
pub fn play<G: Gate, R: Threads + Wait + Sync>(
    rt: &R,
    alloc: Global,
    log: &Log,
    setup: Setup,
    gate: &G,
) -> Result<Report, PlayFault>
    ensures ok { IfOk result (IsPlayed log.now.ios.items) }
    ensures ran { IfOk result (λ report. IsRun setup log.now.ios.items report.totals clean) }
    ensures saw { IfErr result (SaysSeen setup log.now.ios.items) }
    ensures setup { (result ≡ Err PlayFault.Setup) ↔ ¬ (IsLegal setup) }
    ensures line { IfErr result (NamesLine log.now.ios.items) }
{
    if !setup.is_legal() {
        return Err(PlayFault::Setup);
    }
    let options = Options {
        reserved: setup.reserved,
        shift: setup.shift,
        ..Options::new(setup.total, setup.submitters + setup.completers)
    };
    // A legal setup is refused only if memory runs out.
    let Ok((tags, hands)) = Queue::open(alloc, options, MAX_CAP, 0u64) else {
        return Err(PlayFault::Memory);
    };
    play_under::<Brand, G, R>(rt, alloc, log, setup, gate, tags, hands)
}

/// Plays the log with these tags.
fn play_under<B: Tagged + Send + Sync, G: Gate, R: Threads + Wait + Sync>(
    rt: &R,
    alloc: Global,
    log: &Log,
    setup: Setup,
    gate: &G,
    tags: Queue<u64>,
    hands: Vec<QueueHand<u64>>,
) -> Result<Report, PlayFault>
    requires total { total_of (pool_of tags) ≡ B.total }
    requires tags { AreTagsFor setup tags }
    requires hands { All (IsFreshOf tags) hands.items }
    requires count { length hands.items ≡ setup.submitters + setup.completers }
    requires setup { IsLegal setup }
    ensures ok { IfOk result (IsPlayed log.now.ios.items) }
    ensures ran { IfOk result (λ report. IsRun setup log.now.ios.items report.totals clean) }
    ensures saw { IfErr result (SaysSeen setup log.now.ios.items) }
    ensures fault { IfErr result (λ fault. fault ≢ PlayFault.Setup) }
    ensures line { IfErr result (NamesLine log.now.ios.items) }
{
    let Ok((queue, pass)) = DeviceQueue::<B>::ruled(alloc, setup.queue as usize) else {
        return Err(PlayFault::Memory);
    };
    let device = Device {
        tags,
        queue,
        store: Mutex::new(Store::open(alloc)),
        stopped: AtomicBool::new(false),
        closed: AtomicBool::new(false),
    };
    let carried = run_threads(rt, alloc, log, gate, &device, hands, pass, setup);
    let Device {
        tags,
        queue: _,
        store,
        stopped: _,
        closed: _,
    } = device;
    let Ok((hands, faults)) = carried else {
        return Err(PlayFault::Memory);
    };
    let done = store.into_inner().into_history();
    // A hand is missing only if its thread could not be started.
    let Ok(totals) = Queue::gather(tags, hands) else {
        return Err(PlayFault::Memory);
    };
    judge(alloc, log, totals.tags, done, faults)
}

/// The outcome of the play, determined after the joins.
fn judge(
    alloc: Global,
    log: &Log,
    totals: Totals,
    done: Vec<Done>,
    faults: Faults,
) -> Result<Report, PlayFault>
    requires { IsHistory done.items }
    ensures ok { IfOk result (IsPlayed log.now.ios.items) }
    ensures report { IfOk result (λ report. (report.done ≡ done) × (report.totals ≡ totals)) }
    ensures clean { OnOk result (IsClean faults) }
    ensures fault { IfErr result (IsJudged log.now.ios.items done.items totals faults) }
{
    let judged = verdict(alloc, log, done.as_slice());
    if faults.memory || judged == Err(PlayFault::Memory) {
        return Err(PlayFault::Memory);
    }
    if faults.spurious {
        return Err(PlayFault::Spurious);
    }
    match judged {
        Ok(()) => {}
        Err(fault) => return Err(fault),
    }
    let count = log.ios.len() as u64;
    let played = Totals {
        got: count,
        back: count,
        held: 0,
        posted: 0,
    };
    if totals != played {
        return Err(PlayFault::Totals);
    }
    Ok(Report { totals, done })
}
