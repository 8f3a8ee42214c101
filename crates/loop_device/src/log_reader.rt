//! The state of reading an I/O log, line by line.
ghost use Rattle.std.specs.Prelude.{◌≡◌, ◌≤◌, ◌<◌, ◌-◌, ◌^◌, [], length, All, IfErr, OnOk};
ghost use Rattle.loop_device.specs.declared.log_line.TheConstants.{MAX_NAMES};
ghost use Rattle.loop_device.specs.Lines.{LinesAscend};

use crate::fault::{LogCause, LogFault};
use crate::io::{Io, Log};
use crate::log_line::{Entry, read_line};
use std::alloc::Global;

/// What the lines read so far say.
#[derive(Drop)]
pub(crate) struct Reader {
    alloc: Global,
    /// The number of the next line.
    number: u64,
    names: Vec<Vec<u8>>,
    ios: Vec<Io>,
    waits: u64,
    ghost few: { length names.items ≤ MAX_NAMES },
    ghost ascend: { LinesAscend ios.items },
    ghost before: { All (λ io. io.line < number) ios.items },
    ghost counted: { waits < number },
}

impl Reader {
    ghost use Rattle.loop_device.specs.LogLines.{names_of};
    ghost use Rattle.loop_device.specs.LogProgress.{progress_of, ReadsLine, Fails};

    /// A reader at the first line after the header.
    pub(crate) fn new(alloc: Global) -> Reader
        ensures { progress_of result ≡ record { number = 2; names = []; ios = []; waits = 0 } }
    {
        Reader {
            alloc,
            number: 2,
            names: Vec::new(alloc),
            ios: Vec::new(alloc),
            waits: 0,
        }
    }

    /// Reads a line.
    pub(crate) fn read(&mut self, line: &[u8]) -> Result<(), LogFault>
        requires { self.old.number < 2 ^ 64 - 1 }
        ensures ok { OnOk result (ReadsLine (progress_of self.old) line.now (progress_of self.new)) }
        ensures err { IfErr result (Fails (progress_of self.old) line.now) }
    {
        let number = self.number;
        let entry = match read_line(self.alloc, &mut self.names, number, line) {
            Ok(entry) => entry,
            Err(cause) => return Err(self.fault(cause)),
        };
        self.number += 1;
        match entry {
            Entry::Name => {}
            Entry::Wait => self.waits += 1,
            Entry::Io(io) => {
                if self.ios.push(io).is_err() {
                    return Err(LogFault {
                        line: number,
                        cause: LogCause::Memory,
                    });
                }
            }
        }
        Ok(())
    }

    /// The next line is faulty for this cause.
    pub(crate) fn fault(&self, cause: LogCause) -> LogFault
        ensures line { result.line ≡ (progress_of self.now).number }
        ensures cause { result.cause ≡ cause }
    {
        LogFault {
            line: self.number,
            cause,
        }
    }

    /// The log that the lines read so far make up.
    pub(crate) fn log(self) -> Log
        ensures names { names_of result.names.items ≡ (progress_of self).names }
        ensures ios { result.ios.items ≡ (progress_of self).ios }
        ensures waits { result.waits ≡ (progress_of self).waits }
    {
        Log {
            names: self.names,
            ios: self.ios,
            waits: self.waits,
        }
    }
}
