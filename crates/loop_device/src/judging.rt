//! Whether each I/O line of a log was carried out once.
ghost use Rattle.std.specs.Prelude.{◌≡◌, ◌<◌, ◌≤◌, length, map, slice_index, IfOk, IfErr, OnOk, IfSome, IsNone};
ghost use Rattle.std.specs.List.{All, AllWithin, Contains, HoldsAt};
ghost use Rattle.loop_device.specs.Lines.{LinesAscend};
ghost use Rattle.loop_device.specs.Verdict.{CarriesEachOnce, IsPlayFault, AreOfLog, times};

use crate::fault::PlayFault;
use crate::io::{Done, Io, Log};
use std::alloc::Global;

/// Whether the items carry out each I/O line of the log once, and no other line. Of several faults the first in the
/// order Memory, Spurious, Twice, Lost is reported. Takes `n log n` steps, and memory for one number per I/O line.
pub fn verdict(alloc: Global, log: &Log, done: &[Done]) -> Result<(), PlayFault>
    ensures ok { OnOk result (CarriesEachOnce log.now.ios.items done.now) }
    ensures fault { IfErr result (IsPlayFault log.now.ios.items done.now) }
{
    let counts = tally(alloc, &log.ios, done)?;
    if let Some(index) = first_above_one(&counts) {
        return Err(PlayFault::Twice(log.ios[index].line));
    }
    if let Some(index) = first_zero(&counts) {
        return Err(PlayFault::Lost(log.ios[index].line));
    }
    Ok(())
}

/// The first index with a count above 1.
fn first_above_one(counts: &[usize]) -> Option<usize>
    ensures found { IfSome result (λ index. index < length counts.now × 1 < slice_index counts.now index) }
    ensures before { IfSome result (λ index. AllWithin (λ n. n ≤ 1) counts.now 0 index) }
    ensures none { IsNone result → All (λ n. n ≤ 1) counts.now }
{
    counts.iter().position(|count| *count > 1)
}

/// The first index with a count of 0.
fn first_zero(counts: &[usize]) -> Option<usize>
    ensures found { IfSome result (λ index. index < length counts.now × slice_index counts.now index ≡ 0) }
    ensures before { IfSome result (λ index. AllWithin (λ n. 0 < n) counts.now 0 index) }
    ensures none { IsNone result → All (λ n. 0 < n) counts.now }
{
    counts.iter().position(|count| *count == 0)
}

/// Counts how many items carry out each line.
fn tally(alloc: Global, ios: &[Io], done: &[Done]) -> Result<Vec<usize>, PlayFault>
    requires { LinesAscend ios.now }
    ensures known { OnOk result (AreOfLog ios.now done.now) }
    ensures counts { IfOk result (λ counts. counts.items ≡ map (λ io. times done.now io.line) ios.now) }
    ensures fault { IfErr result (IsPlayFault ios.now done.now) }
{
    let Ok(mut counts) = vec![in alloc; 0; ios.len()] else {
        return Err(PlayFault::Memory);
    };
    for item in done {
        match index_of(ios, &item.io) {
            Some(index) => counts[index] += 1,
            None => return Err(PlayFault::Spurious),
        }
    }
    Ok(counts)
}

/// The index of the line among these.
fn index_of(ios: &[Io], io: &Io) -> Option<usize>
    requires { LinesAscend ios.now }
    ensures found { IfSome result (λ index. index < length ios.now × HoldsAt (λ found. found ≡ io.now) ios.now index) }
    ensures absent { IsNone result → ¬ (Contains ios.now io.now) }
{
    match ios.binary_search_by_key(&io.line, |found| found.line) {
        Ok(index) => { if ios[index] == *io { Some(index) } else { None } }
        Err(_) => None,
    }
}
