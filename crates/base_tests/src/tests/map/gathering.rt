//! Callers that are missing, and callers that were lost.
use crate::tests::map::calls::Answer::Won;
use crate::tests::map::calls::Call::Claim;
use crate::tests::map::stage::Stage;
use crate::tests::totals::totals;
use std::test::Fail;
use step_ledger::GatherCause::{self, Missing};

/// A gather for which a caller is missing: its cause, and how many callers it hands back with their map.
fn missing(stage: Stage) -> Result<(GatherCause, usize, Stage), Fail> {
    match stage.gather() {
        Ok(_) => Err(Fail::new("gathered without a caller")),
        Err((cause, stage)) => Ok((cause, stage.count(), stage)),
    }
}

#[test]
fn gather_without_a_caller_hands_all_back(rt: HostRuntime) -> Result<(), Fail> {
    let mut stage = Stage::of_four_tags(rt.alloc(), 2, 16)?;
    stage.send_away(1)?;
    stage.send_away(0)?;
    for (number, present) in [(0, 0), (1, 1)] {
        let (cause, count, back) = missing(stage)?;
        assert_eq!(rt; (cause, count), (Missing(number), present));
        stage = back;
        stage.bring_back()?;
    }
    assert_eq!(rt; stage.close()?.totals, totals(0, 0, 0, 0));
    Ok(())
}

#[test]
fn a_lost_caller_keeps_its_tags(rt: HostRuntime) -> Result<(), Fail> {
    let mut stage = Stage::of_four_tags(rt.alloc(), 2, 16)?;
    let first = stage.act(1, Claim(0, 4));
    stage.lose(1);
    let second = stage.act(0, Claim(0, 15));
    assert_eq!(rt; (first, second), (Some(Won(4, 0)), Some(Won(11, 4))));
    let (cause, count, _) = missing(stage)?;
    assert_eq!(rt; (cause, count), (Missing(1), 1));
    Ok(())
}

#[test]
fn a_refused_gather_succeeds_with_the_missing_caller(rt: HostRuntime) -> Result<(), Fail> {
    let mut stage = Stage::of_four_tags(rt.alloc(), 3, 16)?;
    let wrong = stage.wrong(&[(2, Claim(0, 5), Won(5, 0)), (1, Claim(0, 3), Won(2, 5))]);
    stage.send_away(1)?;
    let (cause, _, mut stage) = missing(stage)?;
    assert_eq!(rt; (wrong, cause), (None, Missing(1)));
    stage.bring_back()?;
    assert_eq!(rt; stage.close()?.totals, totals(3, 0, 3, 0));
    Ok(())
}
