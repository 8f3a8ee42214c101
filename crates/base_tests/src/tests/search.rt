//! Searches of maps: worked examples with their steps counted, and comparisons with a search by the definitions.
ghost use Rattle.std.specs.Prelude.{ℕ, ◌<◌};

mod calls;
mod comparison;
mod counting;
mod draws;
mod freed;
mod hints;
mod marks;
mod memory;
mod reference;
mod shared;
mod threads;

use calls::Answer::{Done, Nothing, Run, Tag, Word};
use calls::Call::{Batch, Follow, Get, Give, Look, Shallow};
use calls::wrong;
use counting::fresh;
use std::alloc::Global;
use std::test::Fail;
use tag_layout::Layout;
use tag_search::{Hint, PlainPort, Port, alone_batches_choose, alone_gets_choose};

/// Takes the tags of the masks that are in their words, and then sets these tags aside, if they are taken.
fn take(port: &mut PlainPort, taken: &[(u32, u64)], aside: &[u32]) {
    for (word, mask) in taken {
        let layout = port.layout();
        if *word < layout.words() && *mask <= layout.usable(*word) {
            port.claim(*word, *mask, mask.count_ones());
        }
    }
    for tag in aside {
        if *tag < port.layout().depth() && port.taken(*tag) {
            port.put(*tag);
        }
    }
}

pub(crate) fn hint_at(at: u32, round_robin: bool) -> Hint {
    Hint { at, round_robin }
}

#[test]
fn searches_answer_as_on_paper(rt: HostRuntime) -> Result<(), Fail> {
    for (name, (depth, shift), (taken, aside), from, said) in [
        (
            "a shallow get stays below its limit",
            (8, 2),
            (&[(0, 0b1100)][..], &[][..]),
            hint_at(2, false),
            &[(Shallow(2), Tag(0), 2), (Shallow(0), Nothing, 0)][..],
        ),
        (
            "a cleared tag is found after a sweep",
            (8, 2),
            (&[(0, 0b1111), (1, 0b1111)][..], &[4][..]),
            hint_at(2, false),
            &[(Get, Tag(4), 2), (Get, Nothing, 0)][..],
        ),
        (
            "round robin goes on from its hint",
            (4, 2),
            (&[][..], &[][..]),
            hint_at(1, true),
            &[(Get, Tag(1), 2), (Get, Tag(2), 0)][..],
        ),
        (
            "round robin misses a bit below its hint",
            (4, 2),
            (&[(0, 0b1110)][..], &[][..]),
            hint_at(2, true),
            &[
                (Get, Nothing, 0),
                (Batch(1), Nothing, 0),
                (Follow(3), Done, 0),
            ][..],
        ),
        (
            "a batch lies in one word",
            (8, 2),
            (&[(0, 0b0111)][..], &[][..]),
            hint_at(1, false),
            &[
                (Batch(2), Run(4, 0b11), 1),
                (Follow(5), Done, 5),
                (Batch(2), Run(6, 0b11), 5),
                (Batch(4), Nothing, 5),
            ][..],
        ),
        (
            "a tag given back is free at once",
            (3, 1),
            (&[(1, 1)][..], &[][..]),
            hint_at(9, false),
            &[
                (Look(1), Word(1, 0), 9),
                (Get, Tag(0), 1),
                (Give(2), Done, 2),
                (Look(1), Word(0, 0), 2),
                (Get, Tag(2), 0),
            ][..],
        ),
    ] {
        let mut counting = fresh(rt.alloc(), depth, shift)?;
        take(&mut counting.port, taken, aside);
        assert_eq!(rt; wrong(&mut counting, from, said), None, "{name}");
    }
    Ok(())
}

#[test]
fn a_get_makes_as_many_steps_as_on_paper(rt: HostRuntime) -> Result<(), Fail> {
    for (name, taken, aside, found, steps) in [
        (
            "a plain get begins at place 0 of the hint's word",
            [(0, 0b1100), (1, 0b1111)],
            &[4][..],
            Tag(0),
            2,
        ),
        (
            "a cleared tag is found after a sweep",
            [(0, 0b1111), (1, 0b1111)],
            &[4][..],
            Tag(4),
            15,
        ),
        (
            "a sweep of the hint's word keeps the only tag",
            [(0, 0b1111), (1, 0b1111)],
            &[3][..],
            Tag(3),
            3,
        ),
        (
            "a sweep of the hint's word keeps the least tag and frees the others",
            [(0, 0b1111), (1, 0b1111)],
            &[1, 3][..],
            Tag(1),
            4,
        ),
    ] {
        let mut counting = fresh(rt.alloc(), 8, 2)?;
        take(&mut counting.port, &taken, aside);
        let wrong = wrong(&mut counting, hint_at(2, false), &[(Get, found, 2)]);
        assert_eq!(rt; (wrong, counting.steps), (None, steps), "{name}");
    }
    Ok(())
}

/// The choice of a batch, if a word has that many tags; otherwise `None`.
#[tactic(auto, using(std::proofs::lemmas::Nat::one_shl))]
fn chosen_batch(port: &mut PlainPort, hint: &mut Hint, n: u32) -> Option<(u32, u64)> {
    let bits = 1u32 << port.layout().shift();
    if n == 0 || n > bits {
        return None;
    }
    port.choose_batch(hint, n)
}

#[test]
fn a_batch_leaves_out_a_tag_that_is_held(rt: HostRuntime) -> Result<(), Fail> {
    let mut port = fresh(rt.alloc(), 8, 2)?.port;
    take(&mut port, &[(0, 0b1111)], &[1, 3]);
    let mut hint = hint_at(0, false);
    let run = chosen_batch(&mut port, &mut hint, 3);
    assert_eq!(rt; (run, hint), (Some((1, 0b101)), hint_at(0, false)));
    let tags = [
        port.choose(&mut hint),
        port.choose_shallow(&mut hint, 4),
        port.choose_shallow(&mut hint, 4),
    ];
    assert_eq!(rt; tags, [Some(4), Some(5), None]);
    let mut round = hint_at(6, true);
    let refused = chosen_batch(&mut port, &mut round, 1);
    let tag = port.choose(&mut round);
    assert_eq!(rt; (refused, tag, round), (None, Some(6), hint_at(0, true)));
    Ok(())
}

#[test]
fn laws_hold() {
    alone_gets_choose::<u32>();
    alone_batches_choose::<u32>();
}
