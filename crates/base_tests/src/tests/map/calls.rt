//! Calls that the callers of a stage make one after another.
ghost use Rattle.tag_core.specs.Callers.{IsCallerOf};

use crate::tests::map::callers::{
    claim_bits, exchange, give_tag, has, look_at, post_tag, put_tag, read, read_note, sweep_word,
    take_tag,
};
use step_ledger::Numbered;
use tag_core::{Caller, Claim, Map, Spent};

/// A call of a caller, with its arguments.
#[derive(Clone, Copy)]
pub(crate) enum Call {
    /// Claims the tags of a word's mask.
    Claim(u32, u64),
    Give(u32),
    Put(u32),
    Sweep(u32),
    Post(u32),
    /// Posts a tag with a note.
    PostNoted(u32, u64),
    ReadNote(u32),
    Take(u32),
    Holds(u32),
    /// Writes a tag's slot.
    Exchange(u32, u64),
    Read(u32),
    Look(u32),
    Number,
}

/// The answer to a call.
#[derive(Clone, Copy, Debug, PartialEq, Eq)]
pub(crate) enum Answer {
    /// The tags of a word that a claim won, and those that it found taken.
    Won(u64, u64),
    Spent,
    Done,
    /// It cannot be done, or there is nothing to do.
    Undone,
    Held(bool),
    /// The value of a slot before the call, or a note.
    Value(u64),
    /// A word and its cleared set.
    Word(u64, u64),
    Numbered(u32),
}

fn claimed(answer: Option<Result<Claim, Spent>>) -> Answer {
    match answer {
        Some(Ok(claim)) => Answer::Won(claim.won, claim.found),
        Some(Err(Spent)) => Answer::Spent,
        None => Answer::Undone,
    }
}

fn done(so: bool) -> Answer {
    if so { Answer::Done } else { Answer::Undone }
}

fn value(found: Option<u64>) -> Answer {
    match found {
        Some(value) => Answer::Value(value),
        None => Answer::Undone,
    }
}

fn word(found: Option<(u64, u64)>) -> Answer {
    match found {
        Some((taken, aside)) => Answer::Word(taken, aside),
        None => Answer::Undone,
    }
}

/// Makes a call.
pub(crate) fn act(map: &Map<u64>, caller: &mut Caller<u64>, call: Call) -> Answer
    requires { IsCallerOf map.now caller.old }
    ensures { IsCallerOf map.now caller.new }
{
    match call {
        Call::Claim(word, mask) => claimed(claim_bits(map, caller, word, mask)),
        Call::Give(tag) => done(give_tag(map, caller, tag)),
        Call::Put(tag) => done(put_tag(map, caller, tag)),
        Call::Sweep(word) => done(sweep_word(map, caller, word)),
        Call::Post(tag) => done(post_tag(map, caller, tag, 0)),
        Call::PostNoted(tag, note) => done(post_tag(map, caller, tag, note)),
        Call::ReadNote(tag) => value(read_note(map, caller, tag)),
        Call::Take(tag) => done(take_tag(map, caller, tag)),
        Call::Holds(tag) => Answer::Held(has(map, caller, tag)),
        Call::Exchange(tag, new) => value(exchange(map, caller, tag, new)),
        Call::Read(tag) => value(read(map, caller, tag)),
        Call::Look(at) => word(look_at(map, caller, at)),
        Call::Number => Answer::Numbered(caller.number()),
    }
}
