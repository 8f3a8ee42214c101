//! Schedules from outside the contracts.
use crate::tests::totals::totals;
use std::test::Fail;
use tag_layout::Layout;
use tag_model::Event::{Give, Keep, Look, Post, Put, Spill, Sweep, Take, Win};
use tag_model::EventFault::{NoSuchCaller, NoSuchTag, NotFree, NotHeld, NotPosted, NotSwept};
use tag_model::{
    Event, EventFault, ModelFault, Totals, World, held_tags_stay, runs_balance, runs_join,
};

/// The totals after an event, or its fault.
fn apply(world: &mut World, event: Event) -> Result<Totals, EventFault> {
    world.apply(event)?;
    Ok(world.totals())
}

/// Applies the events in order, up to the first whose answer differs from the one expected. Returns the index of that
/// event and its answer.
fn wrong(
    world: &mut World,
    said: &[(Event, Result<Totals, EventFault>)],
) -> Option<(usize, Result<Totals, EventFault>)> {
    for (index, (event, answer)) in said.iter().enumerate() {
        let found = apply(world, *event);
        if found != *answer {
            return Some((index, found));
        }
    }
    None
}

#[test]
fn a_run_ends_with_its_totals_or_at_a_fault(rt: HostRuntime) -> Result<(), Fail> {
    for (name, events, answer, after) in [
        (
            "a tag has one holder",
            &[Win(0, 0, 8), Win(1, 0, 8)][..],
            Err((1, NotFree)),
            totals(1, 0, 1, 0),
        ),
        (
            "what is swept is not free",
            &[Win(0, 0, 8), Put(0, 3), Sweep(1, 0), Win(0, 0, 8)][..],
            Err((3, NotFree)),
            totals(1, 1, 0, 0),
        ),
        (
            "what is spilled is free",
            &[
                Win(0, 0, 8),
                Put(0, 3),
                Sweep(1, 0),
                Spill(1, 0),
                Win(1, 0, 8),
            ][..],
            Ok(totals(2, 1, 1, 0)),
            totals(2, 1, 1, 0),
        ),
        (
            "what is kept is held, and not spilled",
            &[
                Win(0, 0, 12),
                Put(0, 2),
                Put(0, 3),
                Sweep(1, 0),
                Keep(1, 0, 4),
                Spill(1, 0),
                Win(0, 0, 8),
                Keep(1, 0, 8),
            ][..],
            Err((7, NotSwept)),
            totals(4, 2, 2, 0),
        ),
    ] {
        let mut world = World::open(rt.alloc(), Layout::new(4, Some(2))?, 2)?;
        let ran = world.run(events);
        assert_eq!(rt; (ran, world.totals()), (answer, after), "{name}");
    }
    Ok(())
}

#[test]
fn an_event_has_its_totals_or_its_first_fault(rt: HostRuntime) -> Result<(), Fail> {
    for (name, callers, said) in [
        (
            "a posted tag is taken by another",
            2,
            &[
                (Win(0, 0, 3), Ok(totals(2, 0, 2, 0))),
                (Post(0, 1), Ok(totals(2, 0, 1, 1))),
                (Take(1, 0), Err(NotPosted)),
                (Take(1, 1), Ok(totals(2, 0, 2, 0))),
                (Give(0, 0, 3), Err(NotHeld)),
                (Give(1, 0, 2), Ok(totals(2, 1, 1, 0))),
            ][..],
        ),
        (
            "causes have their order",
            1,
            &[
                (Win(9, 0, 16), Err(NoSuchTag)),
                (Sweep(9, 1), Err(NoSuchTag)),
                (Put(9, 4), Err(NoSuchTag)),
                (Put(1, 3), Err(NoSuchCaller)),
                (Put(0, 3), Err(NotHeld)),
                (Give(0, 0, 0), Ok(totals(0, 0, 0, 0))),
                (Look, Ok(totals(0, 0, 0, 0))),
            ][..],
        ),
    ] {
        let mut world = World::open(rt.alloc(), Layout::new(4, Some(2))?, callers)?;
        assert_eq!(rt; wrong(&mut world, said), None, "{name}");
    }
    Ok(())
}

/// Returns the totals of a world that was opened.
fn totals_of(opened: Result<World, ModelFault>) -> Result<Totals, ModelFault> {
    Ok(opened?.totals())
}

#[test]
fn a_world_has_one_to_sixty_four_callers(rt: HostRuntime) -> Result<(), Fail> {
    let layout = Layout::new(10_240, None)?;
    assert!(rt; layout.depth() == 10_240);
    for (callers, answer) in [
        (0, Err(ModelFault::CallerCount)),
        (65, Err(ModelFault::CallerCount)),
        (64, Ok(totals(0, 0, 0, 0))),
    ] {
        let opened = totals_of(World::open(rt.alloc(), layout, callers));
        assert_eq!(rt; (callers, opened), (callers, answer));
    }
    Ok(())
}

/// Run with each allocation refused in turn, this shows that nothing else is answered.
#[test]
fn want_of_memory_is_told(rt: HostRuntime) -> Result<(), Fail> {
    let layout = Layout::new(8, None)?;
    let opened = totals_of(World::open(rt.alloc(), layout, 2));
    assert!(rt; opened == Ok(totals(0, 0, 0, 0)) || opened == Err(ModelFault::Memory));
    Ok(())
}

#[test]
fn laws_hold() {
    runs_balance();
    runs_join();
    held_tags_stay();
}
