//! Completing one request.
ghost use Rattle.std.specs.Prelude.{◌≡◌, IfOk, IfErr, IfSome, IsNone, OnOk, OnErr};
ghost use Rattle.std.specs.List.{Contains};
ghost use Rattle.tag_pool.specs.Hands.{Holds};
ghost use Rattle.tag_pool.specs.Holding.{HoldsSame};
ghost use Rattle.tag_queue.specs.Hands.{IsHandOf, in_pool};
ghost use Rattle.loop_device.specs.History.{AddsLine};
ghost use Rattle.loop_device.specs.Lines.{LinesAscend};
ghost use Rattle.loop_device.specs.Requests.{IsLineOf, Completes, EndsRequest, EndsWithout, IsCarryFault, IsRequestFault};

use crate::fault::PlayFault;
use crate::gate::Gate;
use crate::io::{Io, Log};
use crate::store::Store;
use std::sync::{Mutex, Wait};
use tag_queue::{Queue, QueueHand, Ring};

/// Completes the request of a posted tag: takes the tag, carries out the line in its slot, clears the tag and returns
/// the line. `Spurious` means that there is no such tag, that it was found not posted (a step in the hand's list), or
/// that the log has no I/O line with the number in its slot; `Memory` means that the store had no memory for the line.
/// A tag that was taken is cleared whatever became of its line. No clause says what the store holds.
pub fn complete<G: Gate, W: Wait>(
    rt: &W,
    tags: &Queue<u64>,
    hand: &mut QueueHand<u64>,
    tag: u32,
    log: &Log,
    store: &Mutex<Store>,
    gate: &G,
) -> Result<u64, PlayFault>
    requires hand { IsHandOf tags.now hand.old }
    ensures hand { IsHandOf tags.now hand.new }
    ensures held { HoldsSame (in_pool hand.old) (in_pool hand.new) }
    ensures line { IfOk result (IsLineOf log.now.ios.items) }
    ensures ok { IfOk result (λ line. Completes tags.now tag line hand.old hand.new) }
    ensures fault { IfErr result (λ fault. IsRequestFault tags.now log.now.ios.items tag fault hand.old hand.new) }
{
    let Ok(()) = tags.take(hand, tag) else {
        return Err(PlayFault::Spurious);
    };
    finish(rt, tags, hand, tag, log, store, gate)
}

/// Carries out the line in the slot of a tag that the hand holds, and clears the tag, whatever became of the line.
pub(crate) fn finish<G: Gate, W: Wait>(
    rt: &W,
    tags: &Queue<u64>,
    hand: &mut QueueHand<u64>,
    tag: u32,
    log: &Log,
    store: &Mutex<Store>,
    gate: &G,
) -> Result<u64, PlayFault>
    requires hand { IsHandOf tags.now hand.old }
    requires held { Holds (in_pool hand.old) tag }
    ensures hand { IsHandOf tags.now hand.new }
    ensures line { IfOk result (IsLineOf log.now.ios.items) }
    ensures ok { IfOk result (λ line. EndsRequest tags.now tag line hand.old hand.new) }
    ensures fault { IfErr result (λ fault. EndsWithout tags.now log.now.ios.items tag fault hand.old hand.new) }
{
    let line = tags.read_held(hand, tag);
    let carried = carry_out_by_number(rt, line, log, store, gate);
    let _woken = tags.clear_held::<Ring>(hand, tag);
    match carried {
        Ok(()) => Ok(line),
        Err(fault) => Err(fault),
    }
}

/// Carries out the line with this number, under the store's lock.
fn carry_out_by_number<G: Gate, W: Wait>(
    rt: &W,
    line: u64,
    log: &Log,
    store: &Mutex<Store>,
    gate: &G,
) -> Result<(), PlayFault>
    ensures ok { OnOk result (IsLineOf log.now.ios.items line) }
    ensures fault { IfErr result (IsCarryFault log.now.ios.items line) }
{
    let Some(io) = line_of(&log.ios, line) else {
        return Err(PlayFault::Spurious);
    };
    gate.before_complete(line);
    let mut store = store.lock(rt);
    add_line(&mut store, &io)
}

/// Carries out the line once on a store that is lent.
fn add_line(store: &mut Store, io: &Io) -> Result<(), PlayFault>
    ensures ok { OnOk result (AddsLine store.old store.new io.now) }
    ensures err { OnErr result (store.new ≡ store.old) }
    ensures fault { IfErr result (λ fault. fault ≡ PlayFault.Memory) }
{
    match store.carry_out(io) {
        Ok(_stamp) => Ok(()),
        Err(_) => Err(PlayFault::Memory),
    }
}

/// The I/O line with this number.
fn line_of(ios: &[Io], line: u64) -> Option<Io>
    requires { LinesAscend ios.now }
    ensures found { IfSome result (λ io. Contains ios.now io × (io.line ≡ line)) }
    ensures absent { IsNone result → ¬ (IsLineOf ios.now line) }
{
    match ios.binary_search_by_key(&line, |io| io.line) {
        Ok(index) => Some(ios[index]),
        Err(_) => None,
    }
}
