//! Why a log was not read, or not played.

ghost use Rattle.std.specs.Prelude.{◌≡◌, ◌≤◌, IfSome};
ghost use Rattle.loop_device.specs.LogFaults.{number_of_cause, place_of_fault, plain_word, word_of_cause};

use tag_lines::{Misfit, Place, Refusal};
use thiserror::Error;

/// The numbers of a line.
#[derive(Clone, Copy, Debug, PartialEq, Eq)]
pub enum LogNumber {
    /// The time with which the line begins.
    Time,
    /// Where the range starts.
    Offset,
    /// How long it is.
    Length,
}

/// What is wrong with a line of a log. The causes are checked in this order, but for those of a line's time: they come
/// after an empty word or a time alone, and before all else.
#[derive(Clone, Copy, Debug, PartialEq, Eq, Error)]
pub enum LogCause {
    /// The first line is no header of a log.
    #[error("no header")]
    NoHeader,
    /// The first line is the header of the other version: with times where none are read, or without.
    #[error("a log of the other version")]
    OtherVersion,
    /// An empty word, a number of words other than two and four behind a time, or no such action with that many words.
    #[error("no such action")]
    BadLine(Misfit),
    /// This number isn't all digits, or is too large: an offset or a length above 2^63 - 1, a time above 2^64 - 1.
    #[error("not a number")]
    BadNumber(LogNumber),
    /// No earlier line added the name.
    #[error("unknown name")]
    UnknownName,
    /// The name is new, but as many names as a log may have are already known.
    #[error("too many names")]
    TooManyNames,
    /// Memory ran out.
    #[error("out of memory")]
    Memory,
    /// The time is less than that of the line before.
    #[error("an earlier time")]
    EarlierTime,
}

impl LogCause {
    /// The number that stands for it in the output.
    pub fn number(self) -> u64
        ensures { result ≡ number_of_cause self }
    {
        match self {
            LogCause::NoHeader | LogCause::OtherVersion => 1,
            LogCause::BadLine(_) => 2,
            LogCause::BadNumber(_) => 3,
            LogCause::UnknownName => 4,
            LogCause::TooManyNames => 5,
            LogCause::Memory => 6,
            LogCause::EarlierTime => 7,
        }
    }

    /// The number of the word that is wrong, from 1, in a line with or without a time in front.
    fn word(self, has_time: bool) -> Option<u64>
        ensures { result ≡ word_of_cause has_time self }
    {
        match self {
            LogCause::BadNumber(LogNumber::Time) | LogCause::EarlierTime => Some(1),
            _ => {
                let word = self.plain_word()?;
                Some(if has_time { word + 1 } else { word })
            }
        }
    }

    /// The number of the word that is wrong in a line without a time.
    fn plain_word(self) -> Option<u64>
        ensures word { result ≡ plain_word self }
        ensures few { IfSome result (λ word. word ≤ 4) }
    {
        match self {
            LogCause::UnknownName | LogCause::TooManyNames => Some(1),
            LogCause::BadLine(Misfit::UnknownCommand(_)) => Some(2),
            LogCause::BadNumber(LogNumber::Offset) => Some(3),
            LogCause::BadNumber(LogNumber::Length) => Some(4),
            _ => None,
        }
    }

    /// What is wrong, in words.
    fn what(self, has_time: bool) -> &'static str {
        match self {
            LogCause::NoHeader => {
                if has_time {
                    "not 'fio version 3 iolog', with which a log with times begins"
                } else {
                    "not 'fio version 2 iolog', with which a log begins"
                }
            }
            LogCause::OtherVersion => {
                if has_time {
                    "a log of version 2, which has no times: leave out --with-times"
                } else {
                    "a log of version 3, with a time before each line: --with-times plays it"
                }
            }
            LogCause::BadLine(Misfit::EmptyWord) => {
                "an empty word: the line is empty, begins or ends with a blank, or has two in a row"
            }
            LogCause::BadLine(Misfit::WordCount) => {
                if has_time {
                    "neither three words nor five; a file name has no blanks"
                } else {
                    "neither two words nor four; a file name has no blanks"
                }
            }
            LogCause::BadLine(Misfit::UnknownCommand(_)) => {
                "no such action with this many words; a file name has no blanks"
            }
            LogCause::BadNumber(LogNumber::Time) =>
                "the time is not a decimal number, or is too large",
            LogCause::BadNumber(_) => "not a decimal number of at most 9223372036854775807",
            LogCause::UnknownName => "no line before this one adds this file",
            LogCause::TooManyNames => "a seventeenth file, and a log has 16 at most",
            LogCause::Memory => "out of memory",
            LogCause::EarlierTime => "the time is less than that of the line before",
        }
    }
}

/// Why a log was not read.
#[derive(Clone, Copy, Debug, PartialEq, Eq, Error)]
#[error("line {line}: {cause}")]
pub struct LogFault {
    /// The number, from 1, of the first faulty line, or of the line that was being read when memory ran out.
    pub line: u64,
    /// What is wrong with it.
    pub cause: LogCause,
}

impl LogFault {
    /// What is wrong with which word. `has_time` says whether the log was read with times.
    pub fn refusal(self, has_time: bool) -> Refusal
        ensures { result.place ≡ place_of_fault has_time self }
    {
        Refusal {
            place: Place::at(self.line, self.cause.word(has_time)),
            what: self.cause.what(has_time),
        }
    }
}

/// Why a log was not played. Of several causes the first is reported, in the order Memory, Spurious, Twice, Lost,
/// Totals.
#[derive(Clone, Copy, Debug, PartialEq, Eq, Error)]
pub enum PlayFault {
    /// Memory ran out, or a thread could not be started.
    #[error("out of memory")]
    Memory,
    /// A number of the setup is out of range, or no tag is ordinary.
    #[error("no such setup")]
    Setup,
    /// This line was not carried out; it is the least such line.
    #[error("line {0} was not carried out")]
    Lost(u64),
    /// This line was carried out more than once; it is the least such line.
    #[error("line {0} was carried out more than once")]
    Twice(u64),
    /// A spurious completion: of a line that is not in the log, or of a tag that was handed on but is not posted.
    #[error("a line was carried out that is not in the log")]
    Spurious,
    /// The totals are not one tag got and given back for each line.
    #[error("the totals do not fit the log")]
    Totals,
}
