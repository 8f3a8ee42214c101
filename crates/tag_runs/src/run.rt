//! The three runs. Each reads its whole input, then computes the output, then writes it.
ghost use Rattle.std.specs.Prelude.{◌≡◌, ◌≢◌, ◌||◌, IfOk, IfErr, IsErrOf};
ghost use Rattle.tag_script.specs.Check.{TellsVerdict};
ghost use Rattle.tag_script.specs.Script.{Owed};
ghost use Rattle.tag_runs.specs.Input.{StopsReading, is_read_fault};
ghost use Rattle.tag_runs.specs.Reports.{Reports};
ghost use Rattle.tag_runs.specs.Runs.{HasOutput, WritesOutput};

use crate::fault::RunFault;
use crate::input::read_whole;
use crate::log_answer::answer_log;
use crate::options::PlayOptions;
use crate::source::Source;
use std::alloc::Global;
use std::io::Write;
use std::sync::Wait;
use std::thread::Threads;
use tag_script::{CheckOptions, Ending, ScriptOptions, answer_script, verdict_on};

/// Reads a script, one command per line, and writes the answers, at least one line for each command, and the totals
/// at the end.
pub fn run_script<T: Wait, R: Source, W: Write>(
    rt: &T,
    alloc: Global,
    options: &ScriptOptions,
    reader: &mut R,
    writer: &mut W,
) -> Result<Ending, RunFault>
    ensures written { IfOk result (WritesOutput (Owed options.now) (R.remaining reader.old)
        (W.contents writer.old) (W.contents writer.new)) }
    ensures untouched { IfErr result (λ fault. fault ≢ RunFault.Write → writer.new ≡ writer.old) }
    ensures stopped { IfErr result (λ fault. StopsReading fault (R.remaining reader.old) (R.remaining reader.new)) }
    ensures failed { R.has_failed reader.new ≡ (is_read_fault result || R.has_failed reader.old) }
    ensures answered { IsErrOf result RunFault.Write → HasOutput (Owed options.now) (R.remaining reader.old) }
{
    let input = read_whole(alloc, reader)?;
    let Ok((text, ending)) = answer_script(rt, alloc, options, &input) else {
        return Err(RunFault::Memory);
    };
    match writer.write_all(&text) {
        Ok(()) => Ok(ending),
        Err(_) => Err(RunFault::Write),
    }
}

/// Reads a list of events, one per line, and writes whether it is possible: `ok` with the totals, or the number of the
/// first event that cannot happen and the reason.
pub fn run_check<R: Source, W: Write>(
    alloc: Global,
    options: &CheckOptions,
    reader: &mut R,
    writer: &mut W,
) -> Result<Ending, RunFault>
    ensures written { IfOk result (WritesOutput (TellsVerdict options.now) (R.remaining reader.old)
        (W.contents writer.old) (W.contents writer.new)) }
    ensures untouched { IfErr result (λ fault. fault ≢ RunFault.Write → writer.new ≡ writer.old) }
    ensures stopped { IfErr result (λ fault. StopsReading fault (R.remaining reader.old) (R.remaining reader.new)) }
    ensures failed { R.has_failed reader.new ≡ (is_read_fault result || R.has_failed reader.old) }
    ensures answered { IsErrOf result RunFault.Write → HasOutput (TellsVerdict options.now) (R.remaining reader.old) }
{
    let input = read_whole(alloc, reader)?;
    let Ok(verdict) = verdict_on(alloc, options, &input) else {
        return Err(RunFault::Memory);
    };
    let Ok(text) = verdict.text(alloc) else {
        return Err(RunFault::Memory);
    };
    let ending = verdict.ending();
    match writer.write_all(&text) {
        Ok(()) => Ok(ending),
        Err(_) => Err(RunFault::Write),
    }
}

/// Reads a fio log and carries out its I/O lines on a device in memory, by threads that share tags. Writes the report,
/// which counts the lines carried out and the tags, or one line that says what is wrong.
pub fn run_play<T: Threads + Wait + Sync, R: Source, W: Write>(
    rt: &T,
    alloc: Global,
    options: &PlayOptions,
    reader: &mut R,
    writer: &mut W,
) -> Result<Ending, RunFault>
    ensures written { IfOk result (WritesOutput (Reports options.now) (R.remaining reader.old)
        (W.contents writer.old) (W.contents writer.new)) }
    ensures untouched { IfErr result (λ fault. fault ≢ RunFault.Write → writer.new ≡ writer.old) }
    ensures stopped { IfErr result (λ fault. StopsReading fault (R.remaining reader.old) (R.remaining reader.new)) }
    ensures failed { R.has_failed reader.new ≡ (is_read_fault result || R.has_failed reader.old) }
    ensures answered { IsErrOf result RunFault.Write → HasOutput (Reports options.now) (R.remaining reader.old) }
{
    let input = read_whole(alloc, reader)?;
    let Ok((text, ending)) = answer_log(rt, alloc, options, &input) else {
        return Err(RunFault::Memory);
    };
    match writer.write_all(&text) {
        Ok(()) => Ok(ending),
        Err(_) => Err(RunFault::Write),
    }
}
