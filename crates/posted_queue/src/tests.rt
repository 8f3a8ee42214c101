//! Two hands share a pool of four tags and a queue. A test is a list of calls with their answers.
ghost use Rattle.tag_pool.specs.Hands.{IsHandOf};
ghost use Rattle.posted_queue.specs.Hands.{IsOwnOf};

use crate::{Popped, PostedHand, PostedQueue, Round, SubmitFault, Submitted};
use std::process::Abort;
use std::sync::Wait;
use std::test::*;
use tag_core::MOST_NOTE;
use tag_pool::{Hand, Options, Pool, TagFault, Turn, Waiter};

/// A call of a hand.
#[derive(Clone, Copy)]
enum Call {
    Get,
    Take(u32),
    Clear(u32),
    Submit(u32),
    SubmitNoted(u32, u64),
    ReadNote(u32),
    Next,
    NextBlocking,
    WaitOn(bool),
    Queued,
}

/// What a call answers.
#[derive(Clone, Copy, Debug, PartialEq, Eq)]
enum Answer {
    Done,
    Nothing,
    Got(u32),
    Noted(Option<u64>),
    Came(Popped),
    /// The sleepers that a submit told.
    Told(u64),
    Refused(SubmitFault),
    Fault(TagFault),
    Sleeps,
    Over,
    CannotWait,
    Count(usize),
}

fn submitted(answer: Result<Submitted<u64>, SubmitFault>) -> Answer {
    match answer {
        Ok(done) => Answer::Told(done.woken.sleepers()),
        Err(fault) => Answer::Refused(fault),
    }
}

/// Makes a call.
fn make<R: Wait>(
    rt: &R,
    pool: &Pool<u64>,
    queue: &PostedQueue,
    hand: &mut Hand<u64>,
    own: &mut PostedHand,
    call: Call,
) -> Answer
    requires hand { IsHandOf pool.now hand.old }
    requires own { IsOwnOf queue.now own.old }
    ensures hand { IsHandOf pool.now hand.new }
    ensures own { IsOwnOf queue.now own.new }
{
    match call {
        Call::Get => match pool.get(hand) {
            Ok(got) => got.answer.map_or(Answer::Nothing, Answer::Got),
            Err(fault) => Answer::Fault(fault),
        },
        Call::Take(tag) => match pool.take(hand, tag) {
            Ok(()) => Answer::Done,
            Err(fault) => Answer::Fault(fault),
        },
        Call::Clear(tag) => match pool.clear(hand, tag) {
            Ok(_) => Answer::Done,
            Err(fault) => Answer::Fault(fault),
        },
        Call::Submit(tag) => submitted(queue.submit(rt, pool, hand, own, tag)),
        Call::SubmitNoted(tag, note) => {
            submitted(queue.submit_noted(rt, pool, hand, own, tag, note.min(MOST_NOTE)))
        }
        Call::ReadNote(tag) => match pool.read_note(hand, tag) {
            Ok(note) => Answer::Noted(note),
            Err(fault) => Answer::Fault(fault),
        },
        Call::Next => match queue.next(rt, pool, hand, own) {
            Ok(got) => got.answer.map_or(Answer::Nothing, Answer::Came),
            Err(fault) => Answer::Fault(fault),
        },
        Call::NextBlocking => match queue.next_blocking(rt, pool, hand, own) {
            Ok(got) => Answer::Came(got.answer),
            Err(fault) => Answer::Fault(fault),
        },
        Call::WaitOn(is_over) => wait_on(rt, pool, queue, hand, own, is_over),
        Call::Queued => Answer::Count(queue.queued(rt, own)),
    }
}

/// Makes one round of a wait.
fn wait_on<R: Wait>(
    rt: &R,
    pool: &Pool<u64>,
    queue: &PostedQueue,
    hand: &mut Hand<u64>,
    own: &mut PostedHand,
    is_over: bool,
) -> Answer
    requires hand { IsHandOf pool.now hand.old }
    requires own { IsOwnOf queue.now own.old }
    ensures hand { IsHandOf pool.now hand.new }
    ensures own { IsOwnOf queue.now own.new }
{
    if !own.can_wait() {
        return Answer::CannotWait;
    }
    let (round, told) = queue.wait_on(rt, pool, hand, own, Waiter::Sleeper, is_over, Turn::Next);
    let _ = queue.wake_told(told);
    match round {
        Round::Came(popped) => Answer::Came(popped),
        Round::Over => Answer::Over,
        Round::Sleep => Answer::Sleeps,
    }
}

/// Has the first hand or the second one make a call.
fn make_by<R: Wait>(
    rt: &R,
    pool: &Pool<u64>,
    queue: &PostedQueue,
    hand: &mut Hand<u64>,
    own: &mut PostedHand,
    other: &mut Hand<u64>,
    its: &mut PostedHand,
    second: bool,
    call: Call,
) -> Answer
    requires hands { IsHandOf pool.now hand.old × IsHandOf pool.now other.old }
    requires owns { IsOwnOf queue.now own.old × IsOwnOf queue.now its.old }
    ensures hands { IsHandOf pool.now hand.new × IsHandOf pool.now other.new }
    ensures owns { IsOwnOf queue.now own.new × IsOwnOf queue.now its.new }
{
    if second {
        return make(rt, pool, queue, other, its, call);
    }
    make(rt, pool, queue, hand, own, call)
}

/// Opens a pool and a queue, has the hands make these calls, which must have the answers beside them, and closes the queue.
fn expect<R: Abort + AllocGlobal + Wait>(
    rt: &R,
    posted: u64,
    said: &[(bool, Call, Answer)],
) -> Result<(), Fail> {
    let options = Options::new(4, 2);
    let (pool, mut hands) = Pool::open(rt.alloc(), options, 0u64)?;
    let (queue, mut owns) = PostedQueue::open(rt.alloc(), options)?;
    let (Some(mut hand), Some(mut own)) = (hands.pop(), owns.pop()) else {
        return Err(Fail::new("there is no hand"));
    };
    let (Some(mut other), Some(mut its)) = (hands.pop(), owns.pop()) else {
        return Err(Fail::new("there is no second hand"));
    };
    for (second, call, answer) in said.iter() {
        let found = make_by(
            rt, &pool, &queue, &mut hand, &mut own, &mut other, &mut its, *second, *call,
        );
        assert_eq!(rt; found, *answer);
    }
    pool.discard();
    owns.push(own)?;
    owns.push(its)?;
    match PostedQueue::gather(rt.alloc(), queue, owns) {
        Ok(totals) => assert_eq!(rt; (totals.held, totals.posted), (0, posted)),
        Err(_) => return Err(Fail::new("a hand is missing")),
    }
    Ok(())
}

#[test]
fn tags_come_in_the_order_in_which_they_were_submitted(rt: HostRuntime) -> Result<(), Fail> {
    expect(
        &rt,
        4,
        &[
            (false, Call::Get, Answer::Got(0)),
            (false, Call::Get, Answer::Got(1)),
            (false, Call::Submit(1), Answer::Told(0)),
            (false, Call::Submit(0), Answer::Told(0)),
            (true, Call::Queued, Answer::Count(2)),
            (true, Call::Next, Answer::Came(Popped::Tag(1))),
            (true, Call::Submit(1), Answer::Told(0)),
            (true, Call::NextBlocking, Answer::Came(Popped::Tag(0))),
            (false, Call::Next, Answer::Came(Popped::Tag(1))),
            (false, Call::Next, Answer::Nothing),
            (false, Call::Queued, Answer::Count(0)),
        ],
    )
}

#[test]
fn a_refused_submit_changes_nothing(rt: HostRuntime) -> Result<(), Fail> {
    expect(
        &rt,
        3,
        &[
            (true, Call::Get, Answer::Got(0)),
            (
                false,
                Call::Submit(0),
                Answer::Refused(SubmitFault::NotHeld),
            ),
            (
                false,
                Call::Submit(4),
                Answer::Refused(SubmitFault::NoSuchTag),
            ),
            (false, Call::Next, Answer::Nothing),
            (true, Call::Submit(0), Answer::Told(0)),
            (true, Call::Submit(0), Answer::Refused(SubmitFault::NotHeld)),
        ],
    )
}

/// The note of a submitted tag is there until the tag comes out of the queue.
#[test]
fn a_submitted_tag_has_a_note(rt: HostRuntime) -> Result<(), Fail> {
    expect(
        &rt,
        4,
        &[
            (false, Call::Get, Answer::Got(0)),
            (false, Call::Get, Answer::Got(1)),
            (false, Call::SubmitNoted(0, 7), Answer::Told(0)),
            (false, Call::Submit(1), Answer::Told(0)),
            (true, Call::ReadNote(0), Answer::Noted(Some(7))),
            (true, Call::ReadNote(1), Answer::Noted(Some(0))),
            (true, Call::Next, Answer::Came(Popped::Tag(0))),
            (false, Call::ReadNote(0), Answer::Noted(None)),
            (false, Call::ReadNote(4), Answer::Fault(TagFault::NoSuchTag)),
            (true, Call::Next, Answer::Came(Popped::Tag(1))),
        ],
    )
}

/// A tag that was taken past the queue can't be submitted until its number has been popped.
#[test]
fn a_number_whose_tag_was_taken_is_skipped(rt: HostRuntime) -> Result<(), Fail> {
    expect(
        &rt,
        4,
        &[
            (false, Call::Get, Answer::Got(0)),
            (false, Call::Get, Answer::Got(1)),
            (false, Call::Submit(0), Answer::Told(0)),
            (true, Call::Take(0), Answer::Done),
            (
                true,
                Call::Submit(0),
                Answer::Refused(SubmitFault::StillQueued),
            ),
            (false, Call::Submit(1), Answer::Told(0)),
            (false, Call::Next, Answer::Came(Popped::Skipped(0))),
            (true, Call::Submit(0), Answer::Told(0)),
            (false, Call::Next, Answer::Came(Popped::Tag(1))),
            (false, Call::Next, Answer::Came(Popped::Tag(0))),
        ],
    )
}

/// The token with which another tag left the queue is not that of a tag whose number is still there.
#[test]
fn a_taken_tag_does_not_go_by_the_token_of_another(rt: HostRuntime) -> Result<(), Fail> {
    expect(
        &rt,
        4,
        &[
            (false, Call::Get, Answer::Got(0)),
            (false, Call::Get, Answer::Got(1)),
            (false, Call::Submit(1), Answer::Told(0)),
            (false, Call::Submit(0), Answer::Told(0)),
            (true, Call::Take(0), Answer::Done),
            (false, Call::Next, Answer::Came(Popped::Tag(1))),
            (
                true,
                Call::Submit(0),
                Answer::Refused(SubmitFault::StillQueued),
            ),
            (false, Call::Submit(1), Answer::Told(0)),
            (false, Call::Next, Answer::Came(Popped::Skipped(0))),
            (true, Call::Submit(0), Answer::Told(0)),
            (false, Call::Next, Answer::Came(Popped::Tag(1))),
            (false, Call::Next, Answer::Came(Popped::Tag(0))),
            (false, Call::Next, Answer::Nothing),
        ],
    )
}

#[test]
fn a_submit_tells_one_that_sleeps(rt: HostRuntime) -> Result<(), Fail> {
    expect(
        &rt,
        4,
        &[
            (false, Call::Get, Answer::Got(0)),
            (true, Call::WaitOn(false), Answer::Sleeps),
            (false, Call::Submit(0), Answer::Told(0b01)),
            (true, Call::WaitOn(false), Answer::Came(Popped::Tag(0))),
            (true, Call::WaitOn(false), Answer::Sleeps),
            (true, Call::WaitOn(true), Answer::Over),
            (true, Call::Submit(0), Answer::Told(0)),
            (true, Call::NextBlocking, Answer::Came(Popped::Tag(0))),
        ],
    )
}
