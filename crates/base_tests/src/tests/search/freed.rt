//! How many tags a get over a shared map frees for others.
ghost use Rattle.tag_core.specs.Callers.{IsCallerOf};

use super::calls::{Answer, told, told_of_batch};
use super::hint_at;
use crate::tests::map::callers::{claim_bits, give_tag, opened, put_tag};
use std::test::Fail;
use tag_core::{Caller, Map};
use tag_layout::Layout;
use tag_search::on_map;

/// Takes all tags of two words of four, sets some of them aside, and frees others.
fn lay_out(map: &Map<u64>, caller: &mut Caller<u64>, aside: &[u32], free: &[u32])
    requires { IsCallerOf map.now caller.old }
    ensures { IsCallerOf map.now caller.new }
{
    claim_bits(map, caller, 0, 0b1111);
    claim_bits(map, caller, 1, 0b1111);
    for tag in aside {
        put_tag(map, caller, *tag);
    }
    for tag in free {
        give_tag(map, caller, *tag);
    }
}

/// A get from tag 0.
#[derive(Clone, Copy)]
enum Get {
    One,
    Shallow(u32),
    Batch(u32),
}

/// Makes a get. Returns its answer, and how many tags it left free.
#[tactic(auto, using(std::proofs::lemmas::Nat::one_shl))]
fn found_by(map: &Map<u64>, caller: &mut Caller<u64>, get: Get) -> Option<(Answer, u64)>
    requires { IsCallerOf map.now caller.old }
    ensures { IsCallerOf map.now caller.new }
{
    let mut hint = hint_at(0, false);
    match get {
        Get::One => {
            let found = on_map::get(map, caller, &mut hint).ok()?;
            Some((told(Ok(found.answer)), found.left))
        }
        Get::Shallow(depth) => {
            let found = on_map::get_shallow(map, caller, &mut hint, depth).ok()?;
            Some((told(Ok(found.answer)), found.left))
        }
        Get::Batch(n) => {
            let bits = 1u32 << map.layout().shift();
            if n == 0 || n > bits {
                return None;
            }
            let found = on_map::get_batch(map, caller, &mut hint, n).ok()?;
            Some((told_of_batch(Ok(found.answer)), found.left))
        }
    }
}

#[test]
fn a_get_tells_what_it_freed_for_others(rt: HostRuntime) -> Result<(), Fail> {
    for (name, aside, free, get, answer, left) in [
        ("none aside", &[][..], &[][..], Get::One, Answer::Nothing, 0),
        ("one aside", &[6][..], &[][..], Get::One, Answer::Tag(6), 0),
        (
            "three aside",
            &[4, 5, 7][..],
            &[][..],
            Get::One,
            Answer::Tag(4),
            2,
        ),
        (
            "past the shallow limit",
            &[3, 6, 7][..],
            &[][..],
            Get::Shallow(2),
            Answer::Nothing,
            3,
        ),
        (
            "on both sides of the limit",
            &[0, 1, 2][..],
            &[][..],
            Get::Shallow(2),
            Answer::Tag(0),
            2,
        ),
        (
            "a shallow get that wins in another word",
            &[3][..],
            &[4][..],
            Get::Shallow(2),
            Answer::Tag(4),
            1,
        ),
        (
            "a batch of those aside",
            &[0, 1, 2, 3][..],
            &[][..],
            Get::Batch(2),
            Answer::Run(0, 0b11),
            2,
        ),
        (
            "a batch in another word",
            &[3][..],
            &[4, 5][..],
            Get::Batch(2),
            Answer::Run(4, 0b11),
            1,
        ),
        (
            "too few for a batch",
            &[3, 7][..],
            &[][..],
            Get::Batch(2),
            Answer::Nothing,
            2,
        ),
    ] {
        let (map, mut callers) = opened(rt.alloc(), Layout::new(8, Some(2))?, 1, 100)?;
        let Some(mut caller) = callers.pop() else {
            return Err(Fail::new("no caller"));
        };
        lay_out(&map, &mut caller, aside, free);
        let found = found_by(&map, &mut caller, get);
        assert_eq!(rt; found, Some((answer, left)), "{name}");
    }
    Ok(())
}
