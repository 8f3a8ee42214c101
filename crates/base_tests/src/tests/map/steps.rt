//! Steps of one or two callers, in one thread.
use crate::tests::map::calls::Answer::{Done, Held, Spent, Undone, Value, Won, Word};
use crate::tests::map::calls::Call::{
    Claim, Exchange, Give, Holds, Look, Post, PostNoted, Put, Read, ReadNote, Sweep, Take,
};
use crate::tests::map::stage::Stage;
use crate::tests::totals::totals;
use std::test::Fail;

#[test]
fn steps_answer_as_on_paper(rt: HostRuntime) -> Result<(), Fail> {
    for (name, callers, life, said, after, slots) in [
        (
            "a claim wins what nobody has",
            2,
            16,
            &[
                (0, Claim(0, 6), Won(6, 0)),
                (1, Claim(0, 3), Won(1, 6)),
                (0, Give(1), Done),
            ][..],
            totals(3, 1, 2, 0),
            [0; 4],
        ),
        (
            "a spent claim makes no step",
            1,
            2,
            &[(0, Claim(0, 7), Spent), (0, Claim(0, 3), Won(3, 0))][..],
            totals(2, 0, 2, 0),
            [0; 4],
        ),
        (
            "a posted tag is taken once with its slot",
            2,
            16,
            &[
                (0, Claim(0, 1), Won(1, 0)),
                (0, Exchange(0, 7), Value(0)),
                (0, Read(0), Value(7)),
                (0, Post(0), Done),
                (1, Take(0), Done),
                (0, Take(0), Undone),
                (1, Exchange(0, 0), Value(7)),
            ][..],
            totals(1, 0, 1, 0),
            [0; 4],
        ),
        (
            "a posted tag keeps its slot",
            2,
            16,
            &[
                (0, Claim(0, 1), Won(1, 0)),
                (0, Exchange(0, 7), Value(0)),
                (0, Post(0), Done),
                (0, Holds(0), Held(false)),
                (1, Claim(0, 1), Won(0, 1)),
            ][..],
            totals(1, 0, 0, 1),
            [7, 0, 0, 0],
        ),
        (
            "a note stands from the post to the take",
            2,
            16,
            &[
                (1, ReadNote(0), Undone),
                (0, Claim(0, 3), Won(3, 0)),
                (1, ReadNote(0), Undone),
                (0, PostNoted(0, 18_446_744_073_709_551_614), Done),
                (0, Post(1), Done),
                (1, ReadNote(0), Value(18_446_744_073_709_551_614)),
                (0, ReadNote(1), Value(0)),
                (1, Take(0), Done),
                (0, ReadNote(0), Undone),
                (1, PostNoted(0, 5), Done),
                (0, ReadNote(0), Value(5)),
                (0, Take(0), Done),
                (0, Give(0), Done),
                (1, ReadNote(0), Undone),
            ][..],
            totals(2, 1, 0, 1),
            [0; 4],
        ),
        (
            "a tag set aside is free after a sweep",
            2,
            16,
            &[
                (0, Claim(0, 12), Won(12, 0)),
                (0, Put(2), Done),
                (1, Claim(0, 4), Won(0, 12)),
                (1, Look(0), Word(12, 4)),
                (1, Sweep(0), Done),
                (0, Look(0), Word(8, 0)),
                (1, Sweep(0), Undone),
                (1, Claim(0, 4), Won(4, 8)),
            ][..],
            totals(3, 1, 2, 0),
            [0; 4],
        ),
    ] {
        let mut stage = Stage::of_four_tags(rt.alloc(), callers, life)?;
        assert_eq!(rt; stage.wrong(said), None, "{name}");
        let closed = stage.close()?;
        assert!(rt; closed.totals == after, "{name}");
        assert!(rt; closed.slots.as_slice() == &slots[..], "{name}");
    }
    Ok(())
}

#[test]
fn two_callers_meet_and_go_on(rt: HostRuntime) -> Result<(), Fail> {
    let mut stage = Stage::of_four_tags(rt.alloc(), 2, 16)?;
    for said in [
        &[
            (0, Claim(0, 3), Won(3, 0)),
            (1, Claim(0, 7), Won(4, 3)),
            (0, Exchange(1, 5), Value(0)),
            (1, Exchange(2, 6), Value(0)),
        ][..],
        &[
            (0, Holds(1), Held(true)),
            (1, Holds(1), Held(false)),
            (0, Exchange(1, 7), Value(5)),
            (1, Exchange(2, 8), Value(6)),
            (1, Give(2), Done),
        ][..],
    ] {
        assert!(rt; stage.meet(0)?);
        assert_eq!(rt; stage.wrong(said), None);
    }
    assert_eq!(rt; stage.close()?.totals, totals(3, 1, 2, 0));
    Ok(())
}
