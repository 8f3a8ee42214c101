//! The device queue, through which submitters pass tags to completers.
ghost use Rattle.std.specs.Prelude.{◌≡◌, ◌<◌, true, ℕ, OnOk, OnErr, IfErr, List};
ghost use Rattle.crossbeam_queue.specs.Passes.{view, IsPassOf, ruled_capacity};
ghost use Rattle.loop_device.specs.DeviceQueue.{after_push, Tells, WasFull};

use crossbeam_queue::protocol::{Lesson, Outcome, Protocol, Split};
use crossbeam_queue::{Pass, RuledArrayQueue};
use std::collections::LinkedList;
use std::marker::{Brand, PhantomData};
use std::sync::Wait;
use std::sync::atomic::AtomicBool;
use std::sync::atomic::Ordering::SeqCst;

/// How many tags a play has, reserved and ordinary ones together.
pub trait Tagged {
    ghost total: { ℕ };
}

impl Tagged for Brand {
    ghost total = { 0 };
}

/// What the rule knows of a thread. No value of this type is ever made.
pub struct Worker {
    /// Whether the thread is a submitter.
    pub submits: bool,
    /// What it has pushed, newest first.
    pub pushed: LinkedList<u32>,
    /// What it has popped, newest first.
    pub popped: LinkedList<u32>,
}

/// The rule: each number was pushed by submitters as often as it was popped and is in the queue.
pub struct HandedOn<B> {
    of: PhantomData<B>,
}

impl<B: Tagged> Protocol<u32, Worker> for HandedOn<B> {
    ghost use Rattle.std.specs.Prelude.{false, []};
    ghost use Rattle.loop_device.specs.DeviceQueue.{AreHandedOn, worker};

    ghost holds = { AreHandedOn B.total };

    ghost first = { worker false [] [] };
}

/// Makes a submitter's pass.
pub(crate) struct Submitter;

impl Split<Worker> for Submitter {
    ghost use Rattle.std.specs.Prelude.{true, []};
    ghost use Rattle.loop_device.specs.DeviceQueue.{worker};

    ghost left = { λ v. v };

    ghost right = { λ v. worker true [] [] };
}

/// Makes a completer's pass.
pub(crate) struct Completer;

impl Split<Worker> for Completer {
    ghost use Rattle.std.specs.Prelude.{false, []};
    ghost use Rattle.loop_device.specs.DeviceQueue.{worker};

    ghost left = { λ v. v };

    ghost right = { λ v. worker false [] [] };
}

/// A number was pushed.
struct Pushes<B> {
    of: PhantomData<B>,
}

impl<B: Tagged> Outcome<u32, Worker> for Pushes<B> {
    ghost use Rattle.std.specs.Prelude.{◌≡◌};
    ghost use Rattle.loop_device.specs.DeviceQueue.{after_push};

    ghost then = { λ v number w. w ≡ after_push v number };
}

impl<B: Tagged> Lesson<u32, Worker> for Pushes<B> {
    ghost use Rattle.loop_device.specs.DeviceQueue.{IsSeenBy};

    ghost fact = { IsSeenBy B.total };
}

/// A number below the total was popped.
struct Pops<B> {
    of: PhantomData<B>,
}

impl<B: Tagged> Outcome<u32, Worker> for Pops<B> {
    ghost use Rattle.std.specs.Prelude.{◌≡◌, ◌<◌};
    ghost use Rattle.loop_device.specs.DeviceQueue.{after_pop};

    ghost then = { λ v number w. (number < B.total) × (w ≡ after_pop v number) };
}

impl<B: Tagged> Lesson<u32, Worker> for Pops<B> {
    ghost fact = { λ v numbers. Unit {0} };
}

/// The queue of tags that are posted and not yet taken.
pub(crate) type DeviceQueue<B> = RuledArrayQueue<u32, Worker, HandedOn<B>>;

/// What a thread read of the flag before a pop. Only a reading makes it, and each pop uses one up.
#[derive(Drop)]
pub(crate) struct Closing {
    /// Whether the flag was set.
    seen: bool,
}

impl Closing {
    /// Reads the flag, which is set once nothing more is pushed.
    pub(crate) fn read(closed: &AtomicBool) -> Closing {
        Closing {
            seen: closed.load(SeqCst),
        }
    }
}

/// The flag was read set, and a later pop found nothing. Only a pop makes it.
#[derive(Drop)]
pub(crate) struct Drained {
    closing: Closing,
}

/// What a pop found.
#[derive(Drop)]
pub(crate) enum Popped {
    /// The oldest tag.
    Tag(u32),
    /// Nothing; more may be pushed.
    Empty,
    /// Nothing, after the flag was read set.
    Last(Drained),
}

/// Pushes a tag. If the queue is full, the tag is returned as the error.
pub(crate) fn push<B: Tagged, W: Wait>(
    rt: &W,
    queue: &DeviceQueue<B>,
    pass: &mut Pass<u32, Worker>,
    tag: u32,
) -> Result<(), u32>
    requires pass { IsPassOf queue.now pass.old }
    requires submitter { (view pass.old).submits ≡ true }
    requires tag { tag < B.total }
    ensures pass { IsPassOf queue.now pass.new }
    ensures submitter { (view pass.new).submits ≡ true }
    ensures pushed { OnOk result (view pass.new ≡ after_push (view pass.old) tag) }
    ensures back { IfErr result (λ back. back ≡ tag) }
    ensures full { OnErr result (WasFull B.total (ruled_capacity queue.now) (view pass.old)) }
    ensures err { OnErr result (view pass.new ≡ view pass.old) }
{
    queue.push_as::<Pushes<B>, W>(rt, pass, tag)
}

/// Pops the oldest tag of the queue, if there is one, after the flag was read.
pub(crate) fn pop<B: Tagged, W: Wait>(
    rt: &W,
    queue: &DeviceQueue<B>,
    pass: &mut Pass<u32, Worker>,
    closing: Closing,
) -> Popped
    requires { IsPassOf queue.now pass.old }
    ensures pass { IsPassOf queue.now pass.new }
    ensures tells { Tells closing B.total (view pass.old) (view pass.new) result }
{
    match queue.pop_as::<Pops<B>, W>(rt, pass) {
        Some(tag) => Popped::Tag(tag),
        None => {
            if closing.seen {
                Popped::Last(Drained { closing })
            } else {
                Popped::Empty
            }
        }
    }
}
