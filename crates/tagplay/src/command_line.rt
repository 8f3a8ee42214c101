//! Parses a command line and runs the subcommand that it names.
ghost use Rattle.std.specs.Prelude.{◌≡◌, ◌≢◌, ◌||◌, ◌⊎◌, ℕ, true, map, IfErr, IfOk, IsErrOf};
ghost use Rattle.std.specs.Process.{exit_status};
ghost use Rattle.clap.specs.Words.{kind_of};
ghost use Rattle.tag_runs.specs.Input.{StopsReading};
ghost use Rattle.tag_runs.specs.Runs.{HasOutput, WritesOutput};
ghost use Rattle.tag_runs.specs.declared.fault.RunFault.{RunFault as Fault};
ghost use Rattle.tagplay.specs.Subcommands.{owed_by, Chooses};
ghost use Rattle.tagplay.specs.Ends.{EndsWith};
ghost use Rattle.tagplay.specs.Status.{is_read_stop, IsRefused, IsStopFor, StopsBefore};
ghost use Rattle.tagplay.specs.declared.subcommand.Subcommand.{Subcommand as Chosen};

use crate::options;
use crate::stop::{Stop, end};
use crate::subcommand::Subcommand;
use clap::Error;
use clap::error::ErrorKind;
use std::convert::AsStr;
use std::env;
use std::io::{self, Write};
use std::process::ExitCode;
use std::rt::Env;
use std::sync::Wait;
use std::thread::Threads;
use tag_runs::{RunFault, Source};
use tag_script::Ending;

/// Returns the arguments of the process, starting with the program's name. One that is not UTF-8 is a mistake in the
/// command line, which is reported here.
pub(crate) fn words<P: AllocGlobal + Env + Eprint>(rt: &P) -> Result<Vec<String>, Stop>
    ensures { IfErr result (λ stop. (stop ≡ Stop.CommandLine 2) ⊎ (stop ≡ Stop.Run RunFault.Memory)) }
{
    match env::args(rt) {
        Ok(args) => args
            .collect(rt.alloc())
            .map_err(|_| Stop::Run(RunFault::Memory)),
        Err(error) if error.kind() == io::ErrorKind::InvalidData => {
            let _ = eprintln!(rt; "error: an argument is not valid UTF-8");
            Err(Stop::CommandLine(2))
        }
        Err(_) => Err(Stop::Run(RunFault::Memory)),
    }
}

/// Runs the program on its words, starting with its name, and returns its exit status.
pub(crate) fn answer<
    P: AllocGlobal + Print + Eprint + Threads + Wait + Sync,
    S: AsStr,
    R: Source,
    W: Write,
>(rt: &P, words: &[S], reader: &mut R, writer: &mut W) -> ExitCode
    ensures ends { EndsWith (map S.text words.now) (R.remaining reader.old) (R.remaining reader.new)
        (W.contents writer.old) (W.contents writer.new) (exit_status result) }
    ensures failed { R.has_failed reader.new ≡ true
        → (R.has_failed reader.old ≡ true) ⊎ (exit_status result ≡ 3) }
{
    let outcome = run(rt, words, reader, writer);
    end(rt, &outcome)
}

/// Runs the subcommand that `words` name. Help goes to standard output, a usage error to standard error.
pub(crate) fn run<
    P: AllocGlobal + Print + Eprint + Threads + Wait + Sync,
    S: AsStr,
    R: Source,
    W: Write,
>(rt: &P, words: &[S], reader: &mut R, writer: &mut W) -> Result<Ending, Stop>
    ensures written { IfOk result (λ ending. (subcommand : Chosen) × Chooses (map S.text words.now) subcommand
        × WritesOutput (owed_by subcommand) (R.remaining reader.old) (W.contents writer.old)
        (W.contents writer.new) ending) }
    ensures refused { (status : ℕ) → IsErrOf result (Stop.CommandLine status) → IsRefused (map S.text words.now) status
        × (reader.new ≡ reader.old) × (writer.new ≡ writer.old) }
    ensures begun { (fault : Fault) → IsErrOf result (Stop.Run fault) → fault ≢ RunFault.Memory
        → (subcommand : Chosen) × Chooses (map S.text words.now) subcommand }
    ensures stopped { (fault : Fault) → IsErrOf result (Stop.Run fault)
        → StopsReading fault (R.remaining reader.old) (R.remaining reader.new) }
    ensures untouched { (fault : Fault) → IsErrOf result (Stop.Run fault) → fault ≢ RunFault.Write
        → writer.new ≡ writer.old }
    ensures failed { R.has_failed reader.new ≡ (is_read_stop result || R.has_failed reader.old) }
    ensures answered { IsErrOf result (Stop.Run RunFault.Write) → (subcommand : Chosen)
        × Chooses (map S.text words.now) subcommand × HasOutput (owed_by subcommand) (R.remaining reader.old) }
{
    let subcommand = chosen(rt, words)?;
    match subcommand.run(rt, rt.alloc(), reader, writer) {
        Ok(ending) => Ok(ending),
        Err(fault) => Err(Stop::Run(fault)),
    }
}

/// Parses `words`. Help, the version and usage errors are printed here, and end in `Stop::CommandLine`.
pub(crate) fn chosen<P: AllocGlobal + Print + Eprint, S: AsStr>(
    rt: &P,
    words: &[S],
) -> Result<Subcommand, Stop>
    ensures chosen { IfOk result (Chooses (map S.text words.now)) }
    ensures stopped { IfErr result (StopsBefore (map S.text words.now)) }
{
    let Ok(command) = options::command(rt.alloc()) else {
        return Err(Stop::Run(RunFault::Memory));
    };
    match command.try_get_matches_from(words) {
        Ok(matches) => match Subcommand::named(&matches) {
            Some(subcommand) => Ok(subcommand),
            // words without a fault enter one of the three
            None => unreachable!(),
        },
        Err(error) => Err(shown(rt, &error)),
    }
}

/// Prints help, the version or a usage error, and returns how the program stops for it. Want of memory is not printed.
fn shown<P: Print + Eprint>(rt: &P, error: &Error) -> Stop
    ensures { IsStopFor (kind_of error.now) result }
{
    if error.kind() == ErrorKind::OutOfMemory {
        return Stop::Run(RunFault::Memory);
    }
    let _ = error.print(rt);
    Stop::CommandLine(error.exit_code() as u8)
}
