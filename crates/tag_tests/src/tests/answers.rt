//! Answers to calls.

use tag_pool::{Found, Got, Next, Shown as Sums, TagFault, Woken};

/// The answer to a call. Whom it told is a mask: a bit for the number of each hand, sleepers and listeners.
#[derive(Clone, Copy, Debug, PartialEq, Eq)]
pub(crate) enum Answer {
    /// A tag, which told nobody.
    Tag(u32),
    /// A tag, and whom the get told.
    TagAndTold(u32, u64),
    /// The first tag of a batch, and its mask.
    Batch(u32, u64),
    /// A batch, and whom the get told.
    BatchAndTold(u32, u64, u64),
    /// No tag, or nothing to show.
    Nothing,
    /// No tag, and whom the get told.
    NothingAndTold(u64),
    /// A tag, and how many others the get left free.
    TagAndLeft(u32, u64),
    /// Whom the call told.
    Told(u64),
    /// A wait goes on.
    Sleeps,
    /// A wait is over, and whom its end told.
    Over(u64),
    /// The hand cannot wait.
    CannotWait,
    /// Tags kept, handed to the user and taken back from it, and kept ones handed out again.
    Keeps(u32, u64, u64, u64),
    Value(u64),
    /// The note of a tag, if it is posted.
    Noted(Option<u64>),
    Held(bool),
    /// Whether the hand was told, or did not wait.
    WasTold(bool),
    /// Whether anybody waits.
    Waiters(bool),
    Done,
    /// A set's depth, its tags busy and set aside, the bits of a word, and how many words there are.
    Shown(u32, u32, u32, u32, u32),
    /// How many tags are busy, and which of the first 128.
    Busy(u32, u64, u64),
    /// How many bytes a dump takes, and the first three.
    Dumped(u32, u8, u8, u8),
    Refused(TagFault),
    /// Waiters of a queue woken.
    Woken(u32),
    /// The wait group of a queue's hand.
    Group(u32),
    /// A hand left its group woken, or with no grant.
    LeftWoken,
    LeftUnwoken,
    /// A queue's completions counted and charged, its wake index, and its active count.
    Found(u64, u64, u32, u64),
    /// Why a queue refuses a call of a wait: the hand waits, or does not.
    Waits,
    WaitsNot,
    /// The allocator has no such call.
    NoSuchCall,
    /// No caller has this index.
    Nobody,
}

impl Answer {
    /// What a get won, whomever it told.
    pub(crate) fn won(self) -> Answer {
        match self {
            Answer::TagAndTold(tag, _) => Answer::Tag(tag),
            Answer::BatchAndTold(first, mask, _) => Answer::Batch(first, mask),
            Answer::NothingAndTold(_) => Answer::Nothing,
            Answer::Over(_) => Answer::Nothing,
            other => other,
        }
    }

    /// Whether the call was neither refused nor unknown.
    pub(crate) fn is_granted(self) -> bool {
        match self {
            Answer::Refused(_) => false,
            Answer::Waits => false,
            Answer::NoSuchCall => false,
            _ => true,
        }
    }
}

/// The answer of a call, or the fault for which it was refused.
pub(crate) fn answered(called: Result<Answer, TagFault>) -> Answer {
    match called {
        Ok(answer) => answer,
        Err(fault) => Answer::Refused(fault),
    }
}

/// Who was told, sleepers and listeners.
fn mask_of(woken: &Woken) -> u64 {
    woken.sleepers() | woken.listeners()
}

pub(crate) fn woken(woken: Woken) -> Answer {
    Answer::Told(mask_of(&woken))
}

pub(crate) fn tag(found: Option<u32>) -> Answer {
    match found {
        Some(tag) => Answer::Tag(tag),
        None => Answer::Nothing,
    }
}

pub(crate) fn batch(found: Option<(u32, u64)>) -> Answer {
    match found {
        Some((first, mask)) => Answer::Batch(first, mask),
        None => Answer::Nothing,
    }
}

fn and_told(answer: Option<u32>, mask: u64) -> Answer {
    match answer {
        Some(tag) if mask != 0 => Answer::TagAndTold(tag, mask),
        None if mask != 0 => Answer::NothingAndTold(mask),
        found => tag(found),
    }
}

pub(crate) fn got(got: Got<Option<u32>>) -> Answer {
    and_told(got.answer, mask_of(&got.woken))
}

pub(crate) fn got_one(got: Got<u32>) -> Answer {
    and_told(Some(got.answer), mask_of(&got.woken))
}

pub(crate) fn got_batch(got: Got<Option<(u32, u64)>>) -> Answer {
    match (got.answer, mask_of(&got.woken)) {
        (found, 0) => batch(found),
        (Some((first, mask)), whom) => Answer::BatchAndTold(first, mask, whom),
        (None, whom) => Answer::NothingAndTold(whom),
    }
}

pub(crate) fn found(found: Found<u32>) -> Answer {
    match found.answer {
        Some(tag) => Answer::TagAndLeft(tag, found.left),
        None => Answer::Nothing,
    }
}

/// What a round of a wait came to, and whom it told.
pub(crate) fn waited(next: Next, woken: Woken) -> Answer {
    match next {
        Next::Won(tag) => and_told(Some(tag), mask_of(&woken)),
        Next::Over => Answer::Over(mask_of(&woken)),
        Next::Sleep => Answer::Sleeps,
    }
}

/// The tag that a wait won, or `None` where it is over, and whom it told.
pub(crate) fn won_or_over(answer: Option<u32>, woken: Woken) -> Answer {
    match answer {
        Some(tag) => waited(Next::Won(tag), woken),
        None => waited(Next::Over, woken),
    }
}

pub(crate) fn shown(sums: Sums) -> Answer {
    Answer::Shown(
        sums.depth,
        sums.busy,
        sums.cleared,
        sums.bits_per_word,
        sums.map_nr,
    )
}
