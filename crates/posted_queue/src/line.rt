//! The line: the numbers of the queued tags, in the order in which they were submitted.
ghost use Rattle.std.specs.Prelude.{◌≡◌};
ghost use Rattle.crossbeam_queue.specs.Passes.{view, IsPassOf, IsSamePass};
ghost use Rattle.posted_queue.specs.Line.{Joins, Leaves, hand_at, tokens_at};

use crossbeam_queue::protocol::{Lesson, Outcome, Protocol};
use crossbeam_queue::{Pass, RuledArrayQueue};
use std::collections::LinkedList;
use std::snapshot::Snapshot;
use std::sync::Wait;
use std::thread;
use tag_pool::Hand;

/// What the rule of the line knows of a hand. No value of this type is ever made.
pub struct Track {
    /// Each number that the hand pushed with its place in the line, newest first.
    pub pushed: LinkedList<(u64, u32)>,
    /// Each number that it popped with its place in the line, newest first.
    pub popped: LinkedList<(u64, u32)>,
}

/// The rule: numbers are popped in the order in which they were pushed, each once.
pub struct InTurn;

impl Protocol<u32, Track> for InTurn {
    ghost use Rattle.std.specs.Prelude.{[]};
    ghost use Rattle.posted_queue.specs.Line.{AreInTurn, track};

    ghost holds = { AreInTurn };

    ghost first = { track [] [] };
}

/// A number joins the line at its end.
struct Joining;

impl Outcome<u32, Track> for Joining {
    ghost use Rattle.posted_queue.specs.Line.{Joins};

    ghost then = { λ v number w. Joins number v w };
}

impl Lesson<u32, Track> for Joining {
    ghost fact = { λ v numbers. Unit {0} };
}

/// The first number leaves the line.
struct Leaving;

impl Outcome<u32, Track> for Leaving {
    ghost use Rattle.posted_queue.specs.Line.{Leaves};

    ghost then = { λ v number w. Leaves number v w };
}

impl Lesson<u32, Track> for Leaving {
    ghost fact = { λ v numbers. Unit {0} };
}

/// What stands in the line, and which hands handed it on.
pub(crate) struct Standing;

impl Lesson<u32, Track> for Standing {
    ghost use Rattle.posted_queue.specs.Line.{IsSeenBy};

    ghost fact = { IsSeenBy };
}

/// The numbers of the queued tags.
pub(crate) type Line = RuledArrayQueue<u32, Track, InTurn>;

/// What both hands had done when a number joined the line. Only the push makes it, of hands that make no step meanwhile.
/// It has no bytes: only contracts see it.
#[derive(Drop)]
pub struct Joined<R> {
    hand: Snapshot<Hand<R>>,
    tokens: Snapshot<Hand<()>>,
}

/// Pushes a number, and returns what the hands had done by then. It waits while the line is full, which it is not: the
/// line has room for all tags, and each is in it once at most.
pub(crate) fn push_number<R, W: Wait>(
    rt: &W,
    line: &Line,
    pass: &mut Pass<u32, Track>,
    number: u32,
    hand: &Hand<R>,
    tokens: &Hand<()>,
) -> Joined<R>
    requires { IsPassOf line.now pass.old }
    ensures pass { IsPassOf line.now pass.new × IsSamePass pass.old pass.new }
    ensures joins { Joins number (view pass.old) (view pass.new) }
    ensures joined { (hand_at result ≡ hand.now) × (tokens_at result ≡ tokens.now) }
{
    for _ in rt.forever() {
        let Err(_) = line.push_as::<Joining, W>(rt, pass, number) else {
            return Joined {
                hand: Snapshot::of(hand),
                tokens: Snapshot::of(tokens),
            };
        };
        thread::yield_now();
    }
    unreachable!()
}

/// Pops the oldest number. It waits while the line is empty, which it is not for whoever has a token: the number of a tag
/// is pushed before its token is freed.
pub(crate) fn pop_number<W: Wait>(rt: &W, line: &Line, pass: &mut Pass<u32, Track>) -> u32
    requires { IsPassOf line.now pass.old }
    ensures pass { IsPassOf line.now pass.new × IsSamePass pass.old pass.new }
    ensures leaves { Leaves result (view pass.old) (view pass.new) }
{
    for _ in rt.forever() {
        if let Some(number) = line.pop_as::<Leaving, W>(rt, pass) {
            return number;
        }
        thread::yield_now();
    }
    unreachable!()
}
