//! Calls over plain words, and their answers.
ghost use Rattle.std.specs.Prelude.{◌<◌};
ghost use Rattle.tag_layout.specs.Layout.{word_of, place_of};
ghost use Rattle.tag_search.specs.Plain.{IsTaken};

use super::counting::Counting;
use tag_core::Spent;
use tag_search::{Hint, PlainPort, Port, after_clear, get, get_batch, get_shallow};

/// A call with its arguments.
#[derive(Clone, Copy)]
pub(crate) enum Call {
    Get,
    Shallow(u32),
    Batch(u32),
    /// A tag is set aside, if it is taken.
    Put(u32),
    /// A tag is freed, if it is taken.
    Give(u32),
    Sweep(u32),
    /// The hint follows the clear of a tag.
    Follow(u32),
    Look(u32),
}

/// The answer to a call.
#[derive(Clone, Copy, Debug, PartialEq, Eq)]
pub(crate) enum Answer {
    Tag(u32),
    /// The first tag of a batch, and its mask.
    Run(u32, u64),
    /// No tag.
    Nothing,
    Spent,
    Done,
    /// The mask that a sweep freed.
    Swept(u64),
    /// The taken places of a word, and those set aside.
    Word(u64, u64),
    /// The count, the tag or the word is out of range, or the tag is not taken.
    Refused,
}

/// The answer of a get.
pub(crate) fn told(answer: Result<Option<u32>, Spent>) -> Answer {
    match answer {
        Ok(Some(tag)) => Answer::Tag(tag),
        Ok(None) => Answer::Nothing,
        Err(Spent) => Answer::Spent,
    }
}

/// The answer of a batch get.
pub(crate) fn told_of_batch(answer: Result<Option<(u32, u64)>, Spent>) -> Answer {
    match answer {
        Ok(Some((tag, mask))) => Answer::Run(tag, mask),
        Ok(None) => Answer::Nothing,
        Err(Spent) => Answer::Spent,
    }
}

/// Frees a taken tag of plain words.
fn give_plain(plain: &mut PlainPort, tag: u32)
    requires tag { tag < plain.old.layout.depth }
    requires taken { IsTaken plain.old (word_of plain.old.layout tag) (place_of plain.old.layout tag) }
{
    let layout = plain.layout();
    let word = layout.word_of(tag);
    plain.give(word, 1 << layout.place_of(tag));
}

/// Makes a call over plain words.
#[tactic(auto, using(std::proofs::lemmas::Nat::one_shl))]
pub(crate) fn call_plain(counting: &mut Counting, hint: &mut Hint, call: Call) -> Answer {
    let layout = counting.layout();
    match call {
        Call::Get => told(get(counting, hint)),
        Call::Shallow(depth) => told(get_shallow(counting, hint, depth)),
        Call::Batch(n) => {
            let bits = 1u32 << layout.shift();
            if n == 0 || n > bits {
                return Answer::Refused;
            }
            told_of_batch(get_batch(counting, hint, n))
        }
        Call::Put(tag) => {
            if tag >= layout.depth() || !counting.port.taken(tag) {
                return Answer::Refused;
            }
            counting.port.put(tag);
            after_clear(hint, tag);
            Answer::Done
        }
        Call::Give(tag) => {
            if tag >= layout.depth() || !counting.port.taken(tag) {
                return Answer::Refused;
            }
            give_plain(&mut counting.port, tag);
            after_clear(hint, tag);
            Answer::Done
        }
        Call::Sweep(word) => {
            if word >= layout.words() {
                return Answer::Refused;
            }
            Answer::Swept(counting.sweep(word))
        }
        Call::Follow(tag) => {
            after_clear(hint, tag);
            Answer::Done
        }
        Call::Look(word) => {
            if word >= layout.words() {
                return Answer::Refused;
            }
            let plain = &mut counting.port;
            Answer::Word(plain.look(word), plain.look_aside(word))
        }
    }
}

/// Makes the calls in order, up to the first with another answer than the one expected, or after which the hint is not at
/// the tag expected. Returns the index of that call, its answer, and the hint.
pub(crate) fn wrong(
    counting: &mut Counting,
    from: Hint,
    said: &[(Call, Answer, u32)],
) -> Option<(usize, Answer, Hint)> {
    let mut hint = from;
    for (index, (call, answer, at)) in said.iter().enumerate() {
        let found = call_plain(counting, &mut hint, *call);
        if found != *answer || hint != (Hint { at: *at, ..from }) {
            return Some((index, found, hint));
        }
    }
    None
}
