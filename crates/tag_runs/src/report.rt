//! Texts of plays: the eleven lines of a report, or the line that says why there is none.
ghost use Rattle.std.specs.Prelude.{◌≡◌, ◌≢◌, ◌++◌, OnOk};
ghost use Rattle.tag_runs.specs.Reports.{count_of, is_kind, kinds_lines, line_of, log_fault_text};
ghost use Rattle.tag_runs.specs.Reports.{number_of_kind, play_fault_text, report_text, totals_lines};
ghost use Rattle.tag_pool.specs.Texts.{field};

use itoa::Buffer;
use loop_device::{Done, IoKind, Log, LogFault, PlayFault, Report};
use std::alloc::AllocError;
use tag_lines::LINE_FEED;
use tag_model::Totals;

/// Appends the report on a log that was played.
pub(crate) fn push_report(text: &mut Vec<u8>, log: &Log, report: &Report) -> Result<(), AllocError>
    ensures ok { OnOk result (text.new.items ≡ text.old.items ++ report_text log.now report.now) }
{
    push_line(text, b"names=", log.names.len() as u64)?;
    push_kinds(text, &report.done)?;
    push_line(text, b"waits=", log.waits)?;
    push_totals(text, report.totals)
}

/// Appends the number of lines carried out, by kind.
fn push_kinds(text: &mut Vec<u8>, done: &[Done]) -> Result<(), AllocError>
    ensures ok { OnOk result (text.new.items ≡ text.old.items ++ kinds_lines done.now) }
{
    push_line(text, b"reads=", count_of(done, IoKind::Read))?;
    push_line(text, b"writes=", count_of(done, IoKind::Write))?;
    push_line(text, b"trims=", count_of(done, IoKind::Trim))?;
    push_line(text, b"syncs=", count_of(done, IoKind::Sync))?;
    push_line(text, b"datasyncs=", count_of(done, IoKind::Datasync))
}

/// Appends the totals of the tags.
fn push_totals(text: &mut Vec<u8>, totals: Totals) -> Result<(), AllocError>
    ensures ok { OnOk result (text.new.items ≡ text.old.items ++ totals_lines totals) }
{
    push_line(text, b"got=", totals.got)?;
    push_line(text, b"back=", totals.back)?;
    push_line(text, b"held=", totals.held)?;
    push_line(text, b"posted=", totals.posted)
}

/// Appends the line that reports a malformed line of a log.
pub(crate) fn push_log_fault(text: &mut Vec<u8>, fault: LogFault) -> Result<(), AllocError>
    ensures ok { OnOk result (text.new.items ≡ text.old.items ++ log_fault_text fault) }
{
    push_field(text, b"line ", fault.line)?;
    push_line(text, b" refused ", fault.cause.number())
}

/// Appends the line that says why a log was not played. `PlayFault::Memory` has no line: it returns `AllocError`.
pub(crate) fn push_play_fault(text: &mut Vec<u8>, fault: PlayFault) -> Result<(), AllocError>
    ensures ok { OnOk result (text.new.items ≡ text.old.items ++ play_fault_text fault) }
    ensures told { OnOk result (fault ≢ PlayFault.Memory) }
{
    match fault {
        PlayFault::Memory => Err(AllocError),
        PlayFault::Setup => push_line(text, b"play refused ", 2),
        PlayFault::Lost(line) => {
            push_field(text, b"play refused ", 3)?;
            push_line(text, b" line ", line)
        }
        PlayFault::Twice(line) => {
            push_field(text, b"play refused ", 4)?;
            push_line(text, b" line ", line)
        }
        PlayFault::Spurious | PlayFault::Totals => push_line(text, b"play refused ", 5),
    }
}

/// Counts the items that carry out a line of this kind.
fn count_of(done: &[Done], kind: IoKind) -> u64
    ensures { result ≡ count_of kind done.now }
{
    done.iter()
        .filter(|item| is_kind(kind, item.io.kind))
        .count() as u64
}

fn is_kind(wanted: IoKind, kind: IoKind) -> bool
    ensures { result ≡ is_kind wanted kind }
{
    number_of(wanted) == number_of(kind)
}

fn number_of(kind: IoKind) -> u8
    ensures { result ≡ number_of_kind kind }
{
    match kind {
        IoKind::Read => 0,
        IoKind::Write => 1,
        IoKind::Trim => 2,
        IoKind::Sync => 3,
        IoKind::Datasync => 4,
    }
}

/// Appends words, a number and a line feed.
fn push_line(text: &mut Vec<u8>, words: &[u8], number: u64) -> Result<(), AllocError>
    ensures ok { OnOk result (text.new.items ≡ text.old.items ++ line_of words.now number) }
{
    push_field(text, words, number)?;
    text.push(LINE_FEED)?;
    Ok(())
}

/// Appends words and a number.
fn push_field(text: &mut Vec<u8>, words: &[u8], number: u64) -> Result<(), AllocError>
    ensures ok { OnOk result (text.new.items ≡ text.old.items ++ field words.now number) }
{
    let mut buffer = Buffer::new();
    text.extend_from_slice(words)?;
    text.extend_from_slice(buffer.format(number).as_bytes())?;
    Ok(())
}
