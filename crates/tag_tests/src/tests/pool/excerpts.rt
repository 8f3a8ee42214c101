//! The code that docs/USING_RATTLE.md quotes, as a caller writes it.
ghost use Rattle.std.specs.Prelude.{All, IfOk};
ghost use Rattle.tag_pool.specs.Hands.{IsHandOf, Holds};
ghost use Rattle.std.specs.Prelude.{◌≤◌};
ghost use Rattle.tag_core.specs.declared.posts.TheConstants.{MOST_NOTE};

use std::test::Fail;
use tag_pool::{
    GatherCause, Hand, Kind, Options, Pool, Shown, TagFault, Totals, Turn, Waiter, Woken,
};

/// Takes the last of the hands.
pub(crate) fn next_hand(pool: &Pool<u64>, hands: &mut Vec<Hand<u64>>) -> Result<Hand<u64>, Fail>
    requires { All (IsHandOf pool.now) hands.old.items }
    ensures own { All (IsHandOf pool.now) hands.new.items }
    ensures hand { IfOk result (IsHandOf pool.now) }
{
    match hands.pop() {
        Some(hand) => Ok(hand),
        None => Err(Fail::new("no hand is left")),
    }
}

/// Gets an ordinary tag, which the hand then holds.
fn win(pool: &Pool<u64>, hand: &mut Hand<u64>) -> Result<u32, Fail>
    requires { IsHandOf pool.now hand.old }
    ensures hand { IsHandOf pool.now hand.new }
    ensures held { IfOk result (Holds hand.new) }
{
    match pool.get(hand)?.answer {
        Some(tag) => Ok(tag),
        None => Err(Fail::new("no tag is free")),
    }
}

/// Passes a tag from the first hand to the second, with a request's number in its slot.
fn pass_on(
    pool: &Pool<u64>,
    first: &mut Hand<u64>,
    second: &mut Hand<u64>,
    tag: u32,
    request: u64,
) -> Result<u64, TagFault>
    requires { IsHandOf pool.now first.old × IsHandOf pool.now second.old }
    ensures { IsHandOf pool.now first.new × IsHandOf pool.now second.new }
{
    pool.write(first, tag, request)?;
    pool.post(first, tag)?;
    pool.take(second, tag)?;
    pool.read(second, tag)
}

/// Posts a tag with a request's number as its note, has the other hand read it, and takes the tag back.
fn look_in_flight(
    pool: &Pool<u64>,
    first: &mut Hand<u64>,
    second: &mut Hand<u64>,
    tag: u32,
    request: u64,
) -> Result<Option<u64>, TagFault>
    requires hands { IsHandOf pool.now first.old × IsHandOf pool.now second.old }
    requires note { request ≤ MOST_NOTE }
    ensures { IsHandOf pool.now first.new × IsHandOf pool.now second.new }
{
    pool.post_noted(first, tag, request)?;
    let note = pool.read_note(second, tag)?;
    pool.take(first, tag)?;
    Ok(note)
}

/// Has one hand wait while another clears a tag, and returns whom that told and woke.
fn wait_for_clear(
    pool: &Pool<u64>,
    waiting: &mut Hand<u64>,
    hand: &mut Hand<u64>,
    tag: u32,
) -> Result<Woken, TagFault>
    requires { IsHandOf pool.now waiting.old × IsHandOf pool.now hand.old }
    ensures { IsHandOf pool.now waiting.new × IsHandOf pool.now hand.new }
{
    pool.list_self(waiting, Kind::Ordinary, Waiter::Sleeper, Turn::Next);
    let woken = pool.clear(hand, tag)?;
    pool.get_up(waiting, Kind::Ordinary);
    Ok(woken)
}

#[test]
fn a_tag_is_won_passed_on_and_waited_for(rt: HostRuntime) -> Result<(), Fail> {
    let options = Options::new(2, 2).with_reserved(1);
    let (pool, mut hands) = Pool::open(rt.alloc(), options, 0u64)?;
    let mut second = next_hand(&pool, &mut hands)?;
    let mut first = next_hand(&pool, &mut hands)?;
    let tag = win(&pool, &mut first)?;
    assert_eq!(rt;
        look_in_flight(&pool, &mut first, &mut second, tag, 6),
        Ok(Some(6))
    );
    assert_eq!(rt; pass_on(&pool, &mut first, &mut second, tag, 7), Ok(7));
    let woken = wait_for_clear(&pool, &mut first, &mut second, tag)?;
    assert_eq!(rt; woken.sleepers(), 1);
    Ok(())
}

#[test]
fn a_batch_is_won_and_cleared(rt: HostRuntime) -> Result<(), Fail> {
    let words_of_eight = Options::new(10, 1).with_reserved(2).with_shift(3);
    let (pool, mut hands) = Pool::open(rt.alloc(), words_of_eight, 0u64)?;
    let mut hand = next_hand(&pool, &mut hands)?;
    assert_eq!(rt; pool.get_batch(&mut hand, 5)?.answer, Some((2, 31)));
    let woken = pool.clear_batch(&mut hand, &[3, 5])?;
    assert!(rt; woken.is_none());
    assert_eq!(rt; pool.get_batch(&mut hand, 3)?.answer, Some((3, 5)));
    Ok(())
}

#[test]
fn a_pool_is_shown_and_closed(rt: HostRuntime) -> Result<(), Fail> {
    let words_of_four = Options::new(8, 1).with_shift(2);
    let (pool, mut hands) = Pool::open(rt.alloc(), words_of_four, 0u64)?;
    let mut hand = next_hand(&pool, &mut hands)?;
    pool.get_batch(&mut hand, 3)?;
    pool.clear(&mut hand, 1)?;
    let shown = pool.show(&mut hand, Kind::Ordinary);
    let sums = Shown {
        depth: 8,
        busy: 2,
        cleared: 1,
        bits_per_word: 4,
        map_nr: 2,
    };
    assert_eq!(rt; shown, sums);
    pool.post(&mut hand, 2)?;
    let Err(fault) = Pool::gather(pool, hands) else {
        return Err(Fail::new("gathered without a hand"));
    };
    assert_eq!(rt;
        (fault.cause, fault.hands.len()),
        (GatherCause::Missing(0), 0)
    );
    let mut hands = fault.hands;
    hands.push(hand)?;
    let Ok(totals) = Pool::gather(fault.pool, hands) else {
        return Err(Fail::new("a hand is missing"));
    };
    let tags = Totals {
        got: 3,
        back: 1,
        held: 1,
        posted: 1,
    };
    assert_eq!(rt; totals, tags);
    Ok(())
}
