//! The program: it answers scripts, lists of events and I/O logs.
#![tactic(auto)]

mod command_line;
mod options;
mod stop;
mod subcommand;

use command_line::{answer, words};
use std::io;
use std::process::ExitCode;
use stop::end;
pub use tag_runs::{PlayOptions, RunFault, Watched, run_check, run_play, run_script};

fn main(rt: HostRuntime) -> ExitCode {
    match words(&rt) {
        Ok(words) => answer(
            &rt,
            words.as_slice(),
            &mut Watched::new(rt.reader()),
            &mut io::writer(&rt),
        ),
        Err(stop) => end(&rt, &Err(stop)),
    }
}
