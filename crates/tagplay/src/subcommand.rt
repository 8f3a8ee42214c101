//! The subcommand that a command line names.
ghost use Rattle.std.specs.Prelude.{◌≡◌, ◌≢◌, ◌||◌, IsNone, IfSome, IfOk, IfErr, IsErrOf};
ghost use Rattle.clap.specs.Words.{subcommand_rows_of};
ghost use Rattle.tag_runs.specs.Input.{StopsReading, is_read_fault};
ghost use Rattle.tag_runs.specs.Runs.{HasOutput, WritesOutput};
ghost use Rattle.tagplay.specs.Subcommands.{owed_by, IsChosen};
ghost use Rattle.tagplay.specs.CommandLine.{EntersOne};
ghost use Rattle.tagplay.specs.declared.subcommand.Subcommand.{Subcommand};

use crate::options::{check_options, play_options, script_options};
use clap::ArgMatches;
use std::alloc::Global;
use std::io::Write;
use std::sync::Wait;
use std::thread::Threads;
use tag_runs::{PlayOptions, RunFault, Source, run_check, run_play, run_script};
use tag_script::{CheckOptions, Ending, ScriptOptions};

/// A subcommand with its options.
#[derive(Clone, Copy, Debug, PartialEq, Eq)]
pub enum Subcommand {
    /// Carry out a script.
    Script(ScriptOptions),
    /// Check a list of events.
    Check(CheckOptions),
    /// Play a log.
    Play(PlayOptions),
}

impl Subcommand {
    /// Returns the subcommand given, with its options, or `None` if it is none of the three.
    pub(crate) fn named(matches: &ArgMatches) -> Option<Subcommand>
        ensures named { IfSome result (IsChosen (subcommand_rows_of matches.now)) }
        ensures none { IsNone result → ¬ EntersOne (subcommand_rows_of matches.now) }
    {
        let (name, options) = matches.subcommand()?;
        if name == "script" {
            Some(Subcommand::Script(script_options(options)))
        } else if name == "check" {
            Some(Subcommand::Check(check_options(options)))
        } else if name == "play" {
            Some(Subcommand::Play(play_options(options)))
        } else {
            None
        }
    }

    /// Runs the chosen subcommand.
    pub(crate) fn run<T: Threads + Wait + Sync, R: Source, W: Write>(
        &self,
        rt: &T,
        alloc: Global,
        reader: &mut R,
        writer: &mut W,
    ) -> Result<Ending, RunFault>
        ensures written { IfOk result (WritesOutput (owed_by self.now) (R.remaining reader.old)
            (W.contents writer.old) (W.contents writer.new)) }
        ensures untouched { IfErr result (λ fault. fault ≢ RunFault.Write → writer.new ≡ writer.old) }
        ensures stopped { IfErr result (λ fault. StopsReading fault (R.remaining reader.old) (R.remaining reader.new)) }
        ensures failed { R.has_failed reader.new ≡ (is_read_fault result || R.has_failed reader.old) }
        ensures answered { IsErrOf result RunFault.Write → HasOutput (owed_by self.now) (R.remaining reader.old) }
    {
        match self {
            Subcommand::Script(options) => run_script(rt, alloc, options, reader, writer),
            Subcommand::Check(options) => run_check(alloc, options, reader, writer),
            Subcommand::Play(options) => run_play(rt, alloc, options, reader, writer),
        }
    }
}
