//! Gets over a shared map by one thread, compared with those over plain words.
ghost use Rattle.tag_core.specs.Callers.{IsCallerOf};

use super::calls::{Answer, Call, call_plain, told, told_of_batch};
use super::counting::{Counting, fresh};
use super::hint_at;
use crate::tests::map::callers::{has, opened};
use std::test::Fail;
use tag_core::{Caller, Map};
use tag_layout::Layout;
use tag_search::{Hint, Port, after_clear, on_map};

/// Decodes a number into a call.
fn call_of(number: u32) -> Call {
    let operand = (number >> 8) % 12;
    match number >> 29 {
        0 | 1 => Call::Get,
        2 => Call::Shallow(operand),
        3 => Call::Batch(operand % 4 + 1),
        4 | 5 => Call::Put(operand),
        6 => Call::Give(operand),
        _ => Call::Sweep(operand),
    }
}

/// Makes a call over a shared map.
#[tactic(auto, using(std::proofs::lemmas::Nat::one_shl))]
fn call_shared(map: &Map<u64>, caller: &mut Caller<u64>, hint: &mut Hint, call: Call) -> Answer
    requires { IsCallerOf map.now caller.old }
    ensures { IsCallerOf map.now caller.new }
{
    let layout = map.layout();
    match call {
        Call::Get => told(on_map::get(map, caller, hint).map(|found| found.answer)),
        Call::Shallow(depth) => {
            told(on_map::get_shallow(map, caller, hint, depth).map(|found| found.answer))
        }
        Call::Batch(n) => {
            let bits = 1u32 << layout.shift();
            if n == 0 || n > bits {
                return Answer::Refused;
            }
            told_of_batch(on_map::get_batch(map, caller, hint, n).map(|found| found.answer))
        }
        Call::Put(tag) => {
            if !has(map, caller, tag) {
                return Answer::Refused;
            }
            on_map::put(map, caller, hint, tag);
            Answer::Done
        }
        Call::Give(tag) => {
            if !has(map, caller, tag) {
                return Answer::Refused;
            }
            on_map::give(map, caller, hint, tag);
            Answer::Done
        }
        Call::Sweep(word) => {
            if word >= layout.words() {
                return Answer::Refused;
            }
            Answer::Swept(map.sweep(caller, word))
        }
        Call::Follow(tag) => {
            after_clear(hint, tag);
            Answer::Done
        }
        Call::Look(word) => {
            if word >= layout.words() {
                return Answer::Refused;
            }
            Answer::Word(map.look(caller, word), map.look_aside(caller, word))
        }
    }
}

/// Returns whether each call of a script has the same answer on both, and leaves the same hint.
fn agree(
    map: &Map<u64>,
    caller: &mut Caller<u64>,
    plain: &mut Counting,
    from: Hint,
    calls: u32,
) -> bool
    requires { IsCallerOf map.now caller.old }
    ensures { IsCallerOf map.now caller.new }
{
    let mut hint = from;
    let mut plain_hint = from;
    let mut number = 1u32;
    for _ in 0..calls {
        number = number.wrapping_mul(1_664_525).wrapping_add(1_013_904_223);
        let call = call_of(number);
        let shared = call_shared(map, caller, &mut hint, call);
        let alone = call_plain(plain, &mut plain_hint, call);
        if shared != alone || hint != plain_hint {
            return false;
        }
    }
    true
}

#[test]
fn a_get_answers_as_one_over_plain_words(rt: HostRuntime) -> Result<(), Fail> {
    for round_robin in [false, true] {
        let mut plain = fresh(rt.alloc(), 10, 2)?;
        let (map, mut callers) = opened(rt.alloc(), plain.layout(), 1, 1 << 20)?;
        let Some(mut caller) = callers.pop() else {
            return Err(Fail::new("no caller"));
        };
        let from = hint_at(3, round_robin);
        assert!(rt; agree(&map, &mut caller, &mut plain, from, 20_000));
    }
    Ok(())
}

#[test]
fn a_spent_caller_leaves_its_hint(rt: HostRuntime) -> Result<(), Fail> {
    let (map, mut callers) = opened(rt.alloc(), Layout::new(8, Some(2))?, 1, 2)?;
    let Some(mut caller) = callers.pop() else {
        return Err(Fail::new("no caller"));
    };
    let mut hint = hint_at(5, false);
    for (call, answer, at) in [
        (Call::Batch(3), Answer::Spent, 5),
        (Call::Get, Answer::Tag(4), 5),
        (Call::Shallow(8), Answer::Tag(5), 6),
        (Call::Get, Answer::Spent, 6),
        (Call::Shallow(8), Answer::Spent, 6),
    ] {
        let found = call_shared(&map, &mut caller, &mut hint, call);
        assert_eq!(rt; (found, hint), (answer, hint_at(at, false)));
    }
    Ok(())
}
