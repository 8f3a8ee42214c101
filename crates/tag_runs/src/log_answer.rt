//! The output for a log: the line of its first fault, otherwise the outcome of its play.
ghost use Rattle.std.specs.Prelude.{◌≡◌, IfOk, IfErr};
ghost use Rattle.tag_runs.specs.Reports.{IsRead, IsUnread, Reports, place_of_play};

use crate::options::PlayOptions;
use crate::report::{push_log_fault, push_play_fault, push_report};
use loop_device::{Log, LogCause, LogFault, OpenGate, PlayFault, Setup, play};
use std::alloc::{AllocError, Global};
use std::sync::Wait;
use std::thread::Threads;
use tag_lines::{Place, Refusal};
use tag_script::Ending;

/// Returns the output that `input` specifies, and whether it is a refusal. `AllocError` if memory runs out. The whole
/// log is read before any line is carried out, so a malformed log has no partial play.
pub(crate) fn answer_log<T: Threads + Wait + Sync>(
    rt: &T,
    alloc: Global,
    options: &PlayOptions,
    input: &[u8],
) -> Result<(Vec<u8>, Ending), AllocError>
    ensures { IfOk result (λ (text, ending). Reports options.now input.now text.items ending) }
{
    let mut text = Vec::new(alloc);
    let log = match read_log(alloc, options.with_times, input) {
        Ok(log) => log,
        Err(fault) => {
            if fault.cause == LogCause::Memory {
                return Err(AllocError);
            }
            push_log_fault(&mut text, fault)?;
            return Ok((text, Ending::Refused(fault.refusal(options.with_times))));
        }
    };
    match play(rt, alloc, &log, options.setup, &OpenGate) {
        Ok(report) => {
            push_report(&mut text, &log, &report)?;
            Ok((text, Ending::Done))
        }
        Err(fault) => {
            push_play_fault(&mut text, fault)?;
            Ok((text, Ending::Refused(play_refusal(&options.setup, fault))))
        }
    }
}

/// Reads a log of version 3, which has times, or of version 2.
fn read_log(alloc: Global, with_times: bool, input: &[u8]) -> Result<Log, LogFault>
    ensures log { IfOk result (IsRead with_times input.now) }
    ensures fault { IfErr result (IsUnread with_times input.now) }
{
    if with_times {
        Log::read_with_times(alloc, input)
    } else {
        Log::read(alloc, input)
    }
}

/// Why a log was not played, in words.
fn play_refusal(setup: &Setup, fault: PlayFault) -> Refusal
    ensures { result.place ≡ place_of_play fault }
{
    let (place, what) = match fault {
        PlayFault::Memory => (Place::Whole, "out of memory"),
        PlayFault::Setup => (Place::Whole, setup.flaw().unwrap_or("no such setup")),
        PlayFault::Lost(line) => (Place::Line(line), "not carried out: a bug in tagplay"),
        PlayFault::Twice(line) => (
            Place::Line(line),
            "carried out more than once: a bug in tagplay",
        ),
        PlayFault::Spurious => (
            Place::Whole,
            "what was carried out is no line of the log: a bug in tagplay",
        ),
        PlayFault::Totals => (
            Place::Whole,
            "the totals are not one tag got and given back for each line: a bug in tagplay",
        ),
    };
    Refusal { place, what }
}
