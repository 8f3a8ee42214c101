//! What a line of an I/O log says.
ghost use Rattle.std.specs.Prelude.{◌≡◌, ◌≢◌, ◌≤◌, ◌<◌, ◌^◌, ◌∷◌, ◌++◌, [], length, IfOk, IfErr, OnOk, Ok, Err};
ghost use Rattle.loop_device.specs.declared.fault.LogCause.TheVariants.{Memory, TooManyNames};
ghost use Rattle.tag_lines.specs.Lines.{parts_of, line_words, number_below};
ghost use Rattle.loop_device.specs.LogLines.{names_of, index_of, name_action, range_action, name_entry, range_entry};
ghost use Rattle.loop_device.specs.LogLines.{range_words, with_name, entry_of, names_after, IsOfLine, TellsCause};

use crate::fault::{LogCause, LogNumber};
use crate::io::{Io, IoKind};
use std::alloc::Global;
use tag_lines::{Misfit, cut_word, has_gap, number};

/// The most names that a log may have.
pub(crate) const MAX_NAMES: usize = 16;

/// The greatest offset and length: 2^63 - 1.
const MAX_EXTENT: u64 = 9_223_372_036_854_775_807;

/// The line has neither two words nor four.
const WORD_COUNT: LogCause = LogCause::BadLine(Misfit::WordCount);

/// The second word is no action with this many words.
const UNKNOWN_ACTION: LogCause = LogCause::BadLine(Misfit::UnknownCommand(2));

/// What a line says.
#[derive(Clone, Copy, Debug, PartialEq, Eq)]
pub(crate) enum Entry {
    /// It adds, opens or closes its name.
    Name,
    /// It is a wait.
    Wait,
    /// It is an I/O line.
    Io(Io),
}

/// The actions that take only a name.
#[derive(Clone, Copy, Debug, PartialEq, Eq)]
pub(crate) enum NameAction {
    /// The name is known from here on.
    Add,
    /// The name must be known; nothing is done.
    Open,
    /// The name must be known; nothing is done.
    Close,
}

impl NameAction {
    /// The action with this name.
    fn named(action: &[u8]) -> Option<NameAction>
        ensures { result ≡ name_action action.now }
    {
        if action == b"add".as_slice() {
            Some(NameAction::Add)
        } else if action == b"open".as_slice() {
            Some(NameAction::Open)
        } else if action == b"close".as_slice() {
            Some(NameAction::Close)
        } else {
            None
        }
    }
}

/// The actions that take a range of bytes.
#[derive(Clone, Copy, Debug, PartialEq, Eq)]
pub(crate) enum RangeAction {
    /// An I/O line of this kind.
    Io(IoKind),
    /// A wait, which is only counted.
    Wait,
}

impl RangeAction {
    /// The action with this name.
    fn named(action: &[u8]) -> Option<RangeAction>
        ensures { result ≡ range_action action.now }
    {
        if action == b"read".as_slice() {
            Some(RangeAction::Io(IoKind::Read))
        } else if action == b"write".as_slice() {
            Some(RangeAction::Io(IoKind::Write))
        } else if action == b"trim".as_slice() {
            Some(RangeAction::Io(IoKind::Trim))
        } else if action == b"sync".as_slice() {
            Some(RangeAction::Io(IoKind::Sync))
        } else if action == b"datasync".as_slice() {
            Some(RangeAction::Io(IoKind::Datasync))
        } else if action == b"wait".as_slice() {
            Some(RangeAction::Wait)
        } else {
            None
        }
    }
}

/// What the line with this number says. Afterwards `names` includes the name of an `add`.
pub(crate) fn read_line(
    alloc: Global,
    names: &mut Vec<Vec<u8>>,
    number: u64,
    line: &[u8],
) -> Result<Entry, LogCause>
    requires few { length names.old.items ≤ MAX_NAMES }
    ensures few { length names.new.items ≤ MAX_NAMES }
    ensures ok { IfOk result (λ entry. entry_of (names_of names.old.items) number (line_words line.now) ≡ Ok entry) }
    ensures names { OnOk result (names_of names.new.items ≡ names_after (names_of names.old.items) (line_words line.now)) }
    ensures line { IfOk result (IsOfLine number) }
    ensures err { IfErr result (TellsCause (entry_of (names_of names.old.items) number (line_words line.now))) }
{
    if has_gap(line) {
        return Err(LogCause::BadLine(Misfit::EmptyWord));
    }
    let (name, rest) = cut_word(line);
    let rest = match rest {
        Some(rest) => rest,
        None => return Err(WORD_COUNT),
    };
    let (action, rest) = cut_word(rest);
    match rest {
        Some(range) => range_line(names, number, name, action, range),
        None => name_line(alloc, names, number, name, action),
    }
}

/// A name and an action on it.
fn name_line(
    alloc: Global,
    names: &mut Vec<Vec<u8>>,
    number: u64,
    name: &[u8],
    action: &[u8],
) -> Result<Entry, LogCause>
    requires few { length names.old.items ≤ MAX_NAMES }
    ensures few { length names.new.items ≤ MAX_NAMES }
    ensures ok { IfOk result (λ entry. entry_of (names_of names.old.items) number (name.now ∷ action.now ∷ []) ≡ Ok entry) }
    ensures names { OnOk result (names_of names.new.items ≡ names_after (names_of names.old.items) (name.now ∷ action.now ∷ [])) }
    ensures line { IfOk result (IsOfLine number) }
    ensures err { IfErr result (TellsCause (entry_of (names_of names.old.items) number (name.now ∷ action.now ∷ []))) }
{
    let action = NameAction::named(action).ok_or(UNKNOWN_ACTION)?;
    match (action, index_of(names, name)) {
        (_, Some(_)) => {}
        (NameAction::Add, None) => add_name(alloc, names, name)?,
        (_, None) => return Err(LogCause::UnknownName),
    }
    Ok(Entry::Name)
}

/// Adds a new name, if there is room for it.
fn add_name(alloc: Global, names: &mut Vec<Vec<u8>>, name: &[u8]) -> Result<(), LogCause>
    requires few { length names.old.items ≤ MAX_NAMES }
    ensures few { length names.new.items ≤ MAX_NAMES }
    ensures room { OnOk result (length names.old.items < MAX_NAMES) }
    ensures ok { OnOk result (names_of names.new.items ≡ names_of names.old.items ++ name.now ∷ []) }
    ensures err { IfErr result (λ cause. cause ≢ Memory → (cause ≡ TooManyNames) × (MAX_NAMES ≤ length names.old.items)) }
{
    if names.len() >= MAX_NAMES {
        return Err(LogCause::TooManyNames);
    }
    let Ok(name) = name.to_vec(alloc) else {
        return Err(LogCause::Memory);
    };
    match names.push(name) {
        Ok(()) => Ok(()),
        Err(_) => Err(LogCause::Memory),
    }
}

/// The index of a name among the known ones.
fn index_of(names: &[Vec<u8>], name: &[u8]) -> Option<u32>
    requires { length names.now ≤ MAX_NAMES }
    ensures { result ≡ index_of (names_of names.now) name.now }
{
    let index = names.iter().position(|known| known.as_slice() == name)?;
    Some(index as u32)
}

/// A name, an action, and the words of its range.
fn range_line(
    names: &[Vec<u8>],
    line: u64,
    name: &[u8],
    action: &[u8],
    range: &[u8],
) -> Result<Entry, LogCause>
    requires { length names.now ≤ MAX_NAMES }
    ensures said { result ≡ range_words line (range_action action.now) (parts_of range.now) (index_of (names_of names.now) name.now) }
    ensures line { IfOk result (IsOfLine line) }
{
    let (offset, rest) = cut_word(range);
    let rest = match rest {
        Some(rest) => rest,
        None => return Err(WORD_COUNT),
    };
    let (size, more) = cut_word(rest);
    match more {
        Some(_) => Err(WORD_COUNT),
        None => range_entry(names, line, name, action, offset, size),
    }
}

fn range_entry(
    names: &[Vec<u8>],
    line: u64,
    name: &[u8],
    action: &[u8],
    offset: &[u8],
    size: &[u8],
) -> Result<Entry, LogCause>
    requires { length names.now ≤ MAX_NAMES }
    ensures line { IfOk result (IsOfLine line) }
    ensures said { result ≡ range_entry line (range_action action.now) (number_below (2 ^ 63) offset.now)
        (number_below (2 ^ 63) size.now) (index_of (names_of names.now) name.now) }
{
    let action = RangeAction::named(action).ok_or(UNKNOWN_ACTION)?;
    let offset = extent(offset).ok_or(LogCause::BadNumber(LogNumber::Offset))?;
    let length = extent(size).ok_or(LogCause::BadNumber(LogNumber::Length))?;
    let kind = match action {
        RangeAction::Io(kind) => kind,
        RangeAction::Wait => return Ok(Entry::Wait),
    };
    let name = index_of(names, name).ok_or(LogCause::UnknownName)?;
    Ok(Entry::Io(Io {
        line,
        kind,
        name,
        offset,
        length,
    }))
}

/// Parses an offset or a length.
fn extent(word: &[u8]) -> Option<u64>
    ensures { result ≡ number_below (2 ^ 63) word.now }
{
    let value = number(word)?;
    if value <= MAX_EXTENT {
        Some(value)
    } else {
        None
    }
}
