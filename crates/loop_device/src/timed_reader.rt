//! The state of reading an I/O log with times, line by line.
ghost use Rattle.std.specs.Prelude.{◌≡◌, ◌-◌, ◌<◌, ◌^◌, [], IfOk, IfErr, OnOk};
ghost use Rattle.loop_device.specs.TimedProgress.{IsBehind, LacksTime};

use crate::fault::{LogCause, LogFault, LogNumber};
use crate::io::Log;
use crate::log_reader::Reader;
use std::alloc::Global;
use tag_lines::{Misfit, cut_word, has_gap, number};

/// What the lines read so far say, and the time of the last one.
#[derive(Drop)]
pub(crate) struct TimedReader {
    reader: Reader,
    /// The time of the last line, 0 before the first.
    last: u64,
}

impl TimedReader {
    ghost use Rattle.loop_device.specs.LogLines.{names_of};
    ghost use Rattle.loop_device.specs.LogProgress.{progress_of};
    ghost use Rattle.loop_device.specs.TimedProgress.{ReadsTimed, FailsTimed};

    /// A reader at the first line after the header.
    pub(crate) fn new(alloc: Global) -> TimedReader
        ensures first { progress_of result.reader ≡ record { number = 2; names = []; ios = []; waits = 0 } }
        ensures last { result.last ≡ 0 }
    {
        TimedReader {
            reader: Reader::new(alloc),
            last: 0,
        }
    }

    /// Reads a line.
    pub(crate) fn read(&mut self, line: &[u8]) -> Result<(), LogFault>
        requires { self.old.reader.number < 2 ^ 64 - 1 }
        ensures ok { OnOk result (ReadsTimed self.old line.now self.new) }
        ensures err { IfErr result (FailsTimed self.old line.now) }
    {
        match behind_time(self.last, line) {
            Ok((time, plain)) => {
                self.last = time;
                self.reader.read(plain)
            }
            Err(cause) => Err(self.reader.fault(cause)),
        }
    }

    /// The log that the lines read so far make up.
    pub(crate) fn log(self) -> Log
        ensures names { names_of result.names.items ≡ (progress_of self.reader).names }
        ensures ios { result.ios.items ≡ (progress_of self.reader).ios }
        ensures waits { result.waits ≡ (progress_of self.reader).waits }
    {
        self.reader.log()
    }
}

/// The time with which a line begins, not less than `last`, and the line without it.
fn behind_time(last: u64, line: &[u8]) -> Result<(u64, &[u8]), LogCause>
    ensures ok { IfOk result (λ (time, plain). IsBehind last line.now time plain.now) }
    ensures err { IfErr result (LacksTime last line.now) }
{
    if has_gap(line) {
        return Err(LogCause::BadLine(Misfit::EmptyWord));
    }
    let (word, rest) = cut_word(line);
    let plain = match rest {
        Some(plain) => plain,
        None => return Err(LogCause::BadLine(Misfit::WordCount)),
    };
    let time = match number(word) {
        Some(time) => time,
        None => return Err(LogCause::BadNumber(LogNumber::Time)),
    };
    if time < last {
        return Err(LogCause::EarlierTime);
    }
    Ok((time, plain))
}
