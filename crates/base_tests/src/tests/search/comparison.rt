//! The search over plain words compared with the reference search, on pseudo-random states and calls.
ghost use Rattle.std.specs.Prelude.{◌<◌, ◌≤◌, ◌≡◌, IsTrue};
ghost use Rattle.tag_layout.specs.Layout.{words, word_bits};
ghost use Rattle.base_tests.specs.Marks.{AreMarks};

use super::draws::Draws;
use super::hints::{hint_after, hint_after_batch};
use super::marks::Marks;
use super::reference::{batch_choice, plain_choice, shallow_choice};
use std::alloc::{AllocError, Global};
use std::test::Fail;
use tag_layout::Layout;
use tag_search::{Hint, PlainPort, Port};

/// A map in plain words, and the same map in marks.
#[derive(Drop)]
struct Pair {
    port: PlainPort,
    marks: Marks,
    hint: Hint,
}

/// Returns whether the words have the bits of the marks, and no other bits.
fn agree(pair: &mut Pair) -> bool {
    let layout = pair.port.layout();
    for word in 0..layout.words() {
        let (mut taken, mut aside) = (0u64, 0u64);
        for place in 0..layout.word_depth(word) {
            let tag = layout.tag_at(word, place) as usize;
            if pair.marks.free.get(tag) == Some(&false) {
                taken |= 1 << place;
            }
            if pair.marks.aside.get(tag) == Some(&true) {
                aside |= 1 << place;
            }
        }
        if word >= pair.port.layout().words()
            || pair.port.look(word) != taken
            || pair.port.look_aside(word) != aside
        {
            return false;
        }
    }
    true
}

/// Sets the mark of a tag, if the tag is in range.
fn mark(marks: &mut [bool], tag: u32, is: bool) {
    if (tag as usize) < marks.len() {
        marks[tag as usize] = is;
    }
}

/// Takes a tag.
fn take(pair: &mut Pair, tag: u32) {
    let layout = pair.port.layout();
    if tag < layout.depth() {
        let word = layout.word_of(tag);
        let mask = 1 << layout.place_of(tag);
        if mask <= layout.usable(word) {
            pair.port.claim(word, mask, mask.count_ones());
            mark(&mut pair.marks.free, tag, false);
        }
    }
}

/// Sets a tag aside, if it is taken.
fn put(pair: &mut Pair, tag: u32) {
    if tag < pair.port.layout().depth() && pair.port.taken(tag) {
        pair.port.put(tag);
        mark(&mut pair.marks.aside, tag, true);
    }
}

/// Gives back the tags of a word's mask that are taken and not set aside.
fn give(pair: &mut Pair, word: u32, mask: u64) {
    let layout = pair.port.layout();
    if word < layout.words() {
        let held = pair.port.look(word) & !pair.port.look_aside(word) & mask;
        pair.port.give(word, held);
        for place in 0..layout.word_depth(word) {
            if (held >> place) & 1 == 1 {
                mark(&mut pair.marks.free, layout.tag_at(word, place), true);
            }
        }
    }
}

/// A map of this layout in a random state: about `taken` eighths of the tags taken, and `aside` eighths of these aside.
fn random_pair(
    alloc: Global,
    layout: Layout,
    draws: &mut Draws,
    taken: u32,
    aside: u32,
) -> Result<Pair, AllocError> {
    let depth = layout.depth();
    let mut pair = Pair {
        port: PlainPort::open(alloc, layout)?,
        marks: Marks {
            free: vec![in alloc; true; depth as usize]?,
            aside: vec![in alloc; false; depth as usize]?,
        },
        hint: Hint {
            at: draws.below(depth + 3),
            round_robin: draws.eighths(4),
        },
    };
    for tag in 0..depth {
        if draws.eighths(taken) {
            take(&mut pair, tag);
            if draws.eighths(aside) {
                put(&mut pair, tag);
            }
        }
    }
    Ok(pair)
}

/// Returns whether there is one mark for each tag.
fn fits(marks: &Marks, layout: Layout) -> bool
    ensures { IsTrue result → AreMarks layout marks.now.free.items marks.now.aside.items }
{
    let depth = layout.depth() as usize;
    marks.free.len() == depth && marks.aside.len() == depth
}

/// Makes a get on both, and returns whether the answer and the hint are the same.
fn same_get(alloc: Global, pair: &mut Pair, shallow: Option<u32>) -> Result<bool, AllocError> {
    let layout = pair.port.layout();
    let old = pair.hint;
    if !fits(&pair.marks, layout) {
        return Ok(false);
    }
    let (free, aside) = (&pair.marks.free, &pair.marks.aside);
    let (wanted, marks) = match shallow {
        Some(depth) => shallow_choice(alloc, layout, free, aside, old, depth)?,
        None => plain_choice(alloc, layout, free, aside, old)?,
    };
    pair.marks = marks;
    let answer = match shallow {
        Some(depth) => pair.port.choose_shallow(&mut pair.hint, depth),
        None => pair.port.choose(&mut pair.hint),
    };
    Ok(answer == wanted && pair.hint == hint_after(layout.depth(), old, wanted))
}

/// Makes a batch get on both, and returns whether the answer and the hint are the same.
fn same_batch(alloc: Global, pair: &mut Pair, n: u32) -> Result<bool, AllocError> {
    let layout = pair.port.layout();
    let old = pair.hint;
    if n == 0 || n > 64 || n > 1u32 << layout.shift() || !fits(&pair.marks, layout) {
        return Ok(false);
    }
    let answer = pair.port.choose_batch(&mut pair.hint, n);
    if old.round_robin {
        return Ok(answer == None && pair.hint == old);
    }
    let (free, aside) = (&pair.marks.free, &pair.marks.aside);
    let (wanted, marks) = batch_choice(alloc, layout, free, aside, old, n)?;
    pair.marks = marks;
    if let Some((tag, _)) = wanted
        && u64::from(tag) + u64::from(n) > u64::from(layout.depth())
    {
        return Ok(false);
    }
    Ok(answer == wanted && pair.hint == hint_after_batch(layout.depth(), old, n, wanted))
}

/// Makes a random call on both, and returns whether they still agree.
fn same_call(alloc: Global, pair: &mut Pair, draws: &mut Draws) -> Result<bool, AllocError> {
    let layout = pair.port.layout();
    let depth = layout.depth();
    let same = match draws.below(8) {
        0 | 1 => same_get(alloc, pair, None)?,
        2 | 3 => same_get(alloc, pair, Some(draws.below(depth + 2)))?,
        4 => same_batch(alloc, pair, draws.below(1 << layout.shift()) + 1)?,
        5 => {
            pair.hint.round_robin = draws.eighths(4);
            true
        }
        6 => {
            put(pair, draws.below(depth + 1));
            true
        }
        _ => {
            let mask = u64::from(draws.below(1 << 16)) << (draws.below(4) * 16);
            give(pair, draws.below(layout.words() + 1), mask);
            true
        }
    };
    Ok(same && agree(pair))
}

/// Makes a map in a random state, and random calls on it.
fn same_calls(
    alloc: Global,
    depth: u32,
    shift: u32,
    draws: &mut Draws,
    calls: u32,
) -> Result<bool, Fail> {
    let layout = Layout::new(depth, Some(shift))?;
    let (taken, aside) = (draws.below(9), draws.below(9));
    let mut pair = random_pair(alloc, layout, draws, taken, aside)?;
    for _ in 0..calls {
        if !same_call(alloc, &mut pair, draws)? {
            return Ok(false);
        }
    }
    Ok(true)
}

/// Returns the depth and the shift of the first map on which the two searches differ. For each depth up to 70 and each
/// shift it tries eight states, with 25 calls on each.
fn difference(alloc: Global, seed: u64) -> Result<Option<(u32, u32)>, Fail> {
    let mut draws = Draws::new(seed);
    for depth in 0..71 {
        for shift in 0..7 {
            for _ in 0..8 {
                if !same_calls(alloc, depth, shift, &mut draws, 25)? {
                    return Ok(Some((depth, shift)));
                }
            }
        }
    }
    Ok(None)
}

// Three tests of 99,400 calls each, since one test of all of them would run past the limit of a test.

#[test]
fn the_search_answers_the_reference_choice(rt: HostRuntime) -> Result<(), Fail> {
    assert_eq!(rt; difference(rt.alloc(), 20_260_917)?, None);
    Ok(())
}

#[test]
fn the_search_answers_the_reference_choice_of_a_second_seed(rt: HostRuntime) -> Result<(), Fail> {
    assert_eq!(rt; difference(rt.alloc(), 34_155_617)?, None);
    Ok(())
}

#[test]
fn the_search_answers_the_reference_choice_of_a_third_seed(rt: HostRuntime) -> Result<(), Fail> {
    assert_eq!(rt; difference(rt.alloc(), 77_410_903)?, None);
    Ok(())
}
