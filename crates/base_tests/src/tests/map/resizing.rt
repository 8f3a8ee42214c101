//! Callers that settle, and go back or on with a next map.
ghost use Rattle.std.specs.Prelude.{◌≡◌, All, IfOk};
ghost use Rattle.tag_core.specs.Callers.{IsCallerOf};
ghost use Rattle.tag_core.specs.Reopening.{LeadsOn};

use crate::tests::map::calls::Answer::{Done, Numbered, Spent, Value, Won, Word};
use crate::tests::map::calls::Call::{Claim, Exchange, Give, Look, Number, Post, Put};
use crate::tests::map::stage::Stage;
use crate::tests::totals::totals;
use std::alloc::Global;
use std::test::Fail;
use step_ledger::GatherCause;
use tag_core::{Caller, Map};
use tag_layout::Layout;

/// What the slots of a next map have.
const FILL: u64 = 7;

/// The callers go on with a map of this layout. Whoever knows a chain of histories that leads to their map knows the one
/// that leads to the next.
pub(crate) fn resize(
    alloc: Global,
    map: Map<u64>,
    callers: Vec<Caller<u64>>,
    layout: Layout,
) -> Result<(Map<u64>, Vec<Caller<u64>>), Fail>
    requires { All (IsCallerOf map) callers.items }
    ensures own { IfOk result (λ p. All (IsCallerOf p.0) p.1.items) }
    ensures chain { IfOk result (λ p. LeadsOn map callers.items p.0) }
{
    let slots = vec![in alloc; FILL; layout.depth() as usize]?;
    let Ok(settled) = map.settle(callers) else {
        return Err(Fail::new("a caller is missing"));
    };
    if settled.held() != 0 || settled.posted() != 0 {
        return Err(Fail::new("a tag is held or posted"));
    }
    match settled.reopen(alloc, layout, slots) {
        Ok(opened) => Ok(opened),
        Err(_) => Err(Fail::new("no memory")),
    }
}

/// All callers go on with a map of this depth. Before, if asked to, whoever stands first goes behind the others.
fn go_on(
    alloc: Global,
    mut stage: Stage,
    goes_behind: bool,
    depth: u32,
    shift: Option<u32>,
) -> Result<Stage, Fail> {
    if goes_behind {
        stage.send_away(0)?;
        stage.bring_back()?;
    }
    stage.resize(alloc, Layout::new(depth, shift)?)
}

#[test]
fn totals_go_on_through_four_resizes(rt: HostRuntime) -> Result<(), Fail> {
    let mut stage = Stage::of_four_tags(rt.alloc(), 2, 16)?;
    for (said, goes_behind, (depth, shift)) in [
        (
            &[
                (1, Claim(0, 5), Won(5, 0)),
                (0, Claim(0, 3), Won(2, 5)),
                (1, Give(0), Done),
                (0, Put(1), Done),
                (1, Give(2), Done),
            ][..],
            true,
            (0, None),
        ),
        (&[][..], false, (1, None)),
        (
            &[
                (0, Number, Numbered(1)),
                (1, Number, Numbered(0)),
                (1, Look(0), Word(0, 0)),
                (1, Claim(0, 1), Won(1, 0)),
                (1, Put(0), Done),
            ][..],
            false,
            (9, Some(3)),
        ),
        (
            &[
                (0, Claim(1, 1), Won(1, 0)),
                (0, Exchange(8, 3), Value(FILL)),
                (0, Give(8), Done),
            ][..],
            true,
            (2, None),
        ),
    ] {
        assert_eq!(rt; stage.wrong(said), None, "before {depth} tags");
        stage = go_on(rt.alloc(), stage, goes_behind, depth, shift)?;
    }
    let wrong = stage.wrong(&[(1, Number, Numbered(1)), (1, Claim(0, 1), Won(1, 0))]);
    assert_eq!(rt; (wrong, stage.close()?.totals), (None, totals(6, 5, 1, 0)));
    Ok(())
}

#[test]
fn a_life_goes_on_through_a_resize(rt: HostRuntime) -> Result<(), Fail> {
    let mut stage = Stage::of_four_tags(rt.alloc(), 1, 3)?;
    let before = stage.wrong(&[
        (0, Claim(0, 3), Won(3, 0)),
        (0, Give(0), Done),
        (0, Give(1), Done),
    ]);
    let mut stage = stage.resize(rt.alloc(), Layout::new(8, None)?)?;
    let after = stage.wrong(&[(0, Claim(0, 3), Spent), (0, Claim(0, 2), Won(2, 0))]);
    assert_eq!(rt; (before, after), (None, None));
    Ok(())
}

#[test]
fn callers_go_back_and_on_with_their_map(rt: HostRuntime) -> Result<(), Fail> {
    let mut stage = Stage::of_four_tags(rt.alloc(), 2, 16)?;
    let before = stage.wrong(&[
        (1, Claim(0, 7), Won(7, 0)),
        (1, Exchange(0, 5), Value(0)),
        (1, Post(2), Done),
    ]);
    let Ok(settled) = stage.settle() else {
        return Err(Fail::new("a caller is missing"));
    };
    let counts = (settled.held(), settled.posted());
    let mut stage = Stage::back(rt.alloc(), settled);
    let after = stage.wrong(&[
        (1, Number, Numbered(1)),
        (1, Exchange(0, 6), Value(5)),
        (1, Give(0), Done),
        (1, Claim(0, 9), Won(9, 6)),
    ]);
    assert_eq!(rt; (before, counts, after), (None, (2, 1), None));
    assert_eq!(rt; stage.close()?.totals, totals(5, 1, 3, 1));
    Ok(())
}

#[test]
fn settle_without_a_caller_hands_all_back(rt: HostRuntime) -> Result<(), Fail> {
    let mut stage = Stage::of_four_tags(rt.alloc(), 3, 16)?;
    stage.send_away(1)?;
    let Err((cause, mut stage)) = stage.settle() else {
        return Err(Fail::new("settled without caller 1"));
    };
    let present = stage.count();
    stage.bring_back()?;
    let Ok(settled) = stage.settle() else {
        return Err(Fail::new("a caller is missing"));
    };
    assert_eq!(rt;
        (cause, present, settled.held(), settled.posted()),
        (GatherCause::Missing(1), 2, 0, 0)
    );
    Ok(())
}
