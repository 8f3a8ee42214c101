//! Commands of callers and their answers.
use crate::board::Board;
use std::alloc::{AllocError, Global};
use std::sync::Wait;
use tag_queue::{Left, MAX_CAP, Options, QueueOpenFault, ResizeCause, TagFault, WaitFault, Wakes};

/// A command of a caller, with its arguments.
#[derive(Clone, Copy, Debug, PartialEq, Eq)]
pub(crate) enum Call {
    Get,
    GetReserved,
    GetShallow(u32),
    GetBatch(u32),
    Clear(u32),
    /// A batch clear of two tags.
    ClearBoth(u32, u32),
    Post(u32),
    Take(u32),
    Wait,
    Leave,
    Wakes,
    Resize(u32),
}

/// The answer of a command.
#[derive(Clone, Copy, Debug, PartialEq, Eq)]
pub(crate) enum Answer {
    Done,
    /// There is no such caller.
    Nobody,
    /// No tag.
    Nothing,
    Tag(u32),
    /// The first tag of a batch, and its mask.
    Batch(u32, u64),
    /// The number of waiters woken.
    Woken(u32),
    Group(u32),
    Left(Left),
    /// Completions counted, wakeups charged, the wake index, and the number of active waiters.
    Found(u64, u64, u32, u64),
    Refused(TagFault),
    NotWaited(WaitFault),
    NotResized(ResizeCause),
}

fn done(called: Result<(), TagFault>) -> Answer {
    match called {
        Ok(()) => Answer::Done,
        Err(fault) => Answer::Refused(fault),
    }
}

fn tag(called: Result<Option<u32>, TagFault>) -> Answer {
    match called {
        Ok(Some(tag)) => Answer::Tag(tag),
        Ok(None) => Answer::Nothing,
        Err(fault) => Answer::Refused(fault),
    }
}

fn batch(called: Result<Option<(u32, u64)>, TagFault>) -> Answer {
    match called {
        Ok(Some((first, mask))) => Answer::Batch(first, mask),
        Ok(None) => Answer::Nothing,
        Err(fault) => Answer::Refused(fault),
    }
}

fn woken(called: Result<u32, TagFault>) -> Answer {
    match called {
        Ok(woken) => Answer::Woken(woken),
        Err(fault) => Answer::Refused(fault),
    }
}

fn group(called: Result<u32, WaitFault>) -> Answer {
    match called {
        Ok(group) => Answer::Group(group),
        Err(fault) => Answer::NotWaited(fault),
    }
}

fn left(called: Result<Left, WaitFault>) -> Answer {
    match called {
        Ok(left) => Answer::Left(left),
        Err(fault) => Answer::NotWaited(fault),
    }
}

fn counts(found: Wakes) -> Answer {
    Answer::Found(found.counted, found.charged, found.index, found.active)
}

/// Opens a board for this many callers, each of which may win any number of tags and count any number of completions.
pub(crate) fn open(
    alloc: Global,
    (total, reserved, callers): (u32, u32, u32),
) -> Result<Board, QueueOpenFault> {
    let options = Options::new(total, callers).with_reserved(reserved);
    Board::open(alloc, options, MAX_CAP)
}

/// Runs any command but a resize.
fn act<W: Wait>(rt: &W, board: &mut Board, caller: u32, call: Call) -> Answer {
    if caller as usize >= board.hands.len() {
        return Answer::Nobody;
    }
    match call {
        Call::Get => tag(board.get(caller)),
        Call::GetReserved => tag(board.get_reserved(caller)),
        Call::GetShallow(depth) => tag(board.get_shallow(caller, depth)),
        Call::GetBatch(count) => batch(board.get_batch(caller, count)),
        Call::Clear(tag) => woken(board.clear(caller, tag)),
        Call::ClearBoth(one, other) => woken(board.clear_batch(caller, &[one, other])),
        Call::Post(tag) => done(board.post(caller, tag)),
        Call::Take(tag) => done(board.take(caller, tag)),
        Call::Wait => group(board.wait(caller)),
        Call::Leave => left(board.leave(rt, caller)),
        Call::Wakes => counts(board.wakes(caller)),
        Call::Resize(_) => Answer::Nobody,
    }
}

fn resize(board: Board, alloc: Global, total: u32) -> Result<(Answer, Board), AllocError> {
    let (resized, board) = board.resize(alloc, total)?;
    match resized {
        Ok(()) => Ok((Answer::Done, board)),
        Err(cause) => Ok((Answer::NotResized(cause), board)),
    }
}

/// Runs the commands, and stops after the first whose answer differs from the expected one. Returns that answer.
pub(crate) fn replay<W: Wait>(
    rt: &W,
    alloc: Global,
    mut board: Board,
    said: &[(u32, Call, Answer)],
) -> Result<(Option<(Call, Answer)>, Board), AllocError> {
    for (caller, call, answer) in said {
        let found = match *call {
            Call::Resize(total) => {
                let (found, resized) = resize(board, alloc, total)?;
                board = resized;
                found
            }
            other => act(rt, &mut board, *caller, other),
        };
        if found != *answer {
            return Ok((Some((*call, found)), board));
        }
    }
    Ok((None, board))
}
