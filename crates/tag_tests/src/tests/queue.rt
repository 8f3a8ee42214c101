//! A queue with its hands. Only what its charge book and its wait groups do is tested here.
ghost use Rattle.std.specs.Prelude.{◌≡◌, All, IfOk, IfErr, IsTrue};
ghost use Rattle.std.specs.Coded.{codes};
ghost use Rattle.tag_pool.specs.Hands.{Holds};
ghost use Rattle.tag_queue.specs.Hands.{IsHandOf, in_pool};

mod clears;
mod example;
mod opening;
mod resizing;
mod stages;
mod threads;
mod waits;

use crate::tests::allocator::TagAllocator;
use crate::tests::answers::{Answer, answered, batch, tag};
use crate::tests::calls::Call;
use std::alloc::Global;
use std::sync::Wait;
use tag_core::MOST_NOTE;
use tag_queue::{
    GatherCause, Left, Numbered, Queue, QueueHand, ResizeCause, Ring, TagFault, Totals, WaitFault,
};

/// The answer of a call of a wait, or the fault for which it was refused.
fn waited(called: Result<Answer, WaitFault>) -> Answer {
    match called {
        Ok(answer) => answer,
        Err(fault) => refused(fault),
    }
}

fn refused(fault: WaitFault) -> Answer {
    match fault {
        WaitFault::NoSuchTag => Answer::Refused(TagFault::NoSuchTag),
        WaitFault::Waiting => Answer::Waits,
        WaitFault::NotWaiting => Answer::WaitsNot,
        WaitFault::Spent => Answer::Refused(TagFault::Spent),
    }
}

fn left(how: Left) -> Answer {
    match how {
        Left::Woken => Answer::LeftWoken,
        Left::Unwoken => Answer::LeftUnwoken,
    }
}

/// Makes a call of a hand that waits, or that looks at the counts.
fn wait_or_look<W: Wait>(
    rt: &W,
    queue: &Queue<u64>,
    hand: &mut QueueHand<u64>,
    call: Call,
) -> Answer
    requires { IsHandOf queue.now hand.old }
    ensures { IsHandOf queue.now hand.new }
{
    match call {
        Call::GetBlocking => waited(queue.get_blocking(rt, hand).map(Answer::Tag)),
        Call::PrepareWait => waited(queue.prepare_wait(hand).map(Answer::Group)),
        Call::FinishWait => waited(queue.finish_wait(rt, hand).map(left)),
        Call::WaitInVain => wait_in_vain(rt, queue, hand),
        Call::Wakes => counts(queue, hand),
        Call::FindsWaiters => Answer::Waiters(queue.wakes(hand).active > 0),
        Call::Agrees(tag) => Answer::Held(agrees(queue, hand, tag)),
        Call::Place => {
            queue.place(hand);
            Answer::Done
        }
        _ => Answer::NoSuchCall,
    }
}

/// Starts a wait and gives it up.
fn wait_in_vain<W: Wait>(rt: &W, queue: &Queue<u64>, hand: &mut QueueHand<u64>) -> Answer
    requires { IsHandOf queue.now hand.old }
    ensures { IsHandOf queue.now hand.new }
{
    if let Err(fault) = queue.prepare_wait(hand) {
        return refused(fault);
    }
    waited(queue.finish_wait(rt, hand).map(left))
}

fn counts(queue: &Queue<u64>, hand: &mut QueueHand<u64>) -> Answer
    requires { IsHandOf queue.now hand.old }
    ensures { IsHandOf queue.now hand.new }
{
    let found = queue.wakes(hand);
    Answer::Found(found.counted, found.charged, found.index, found.active)
}

/// Returns whether the hand holds the tag, and no more completions are charged than were counted.
fn agrees(queue: &Queue<u64>, hand: &mut QueueHand<u64>, tag: u32) -> bool
    requires { IsHandOf queue.now hand.old }
    ensures { IsHandOf queue.now hand.new }
{
    let found = queue.wakes(hand);
    found.charged <= found.counted && has(queue, hand, tag)
}

fn has(queue: &Queue<u64>, hand: &mut QueueHand<u64>, tag: u32) -> bool
    requires { IsHandOf queue.now hand.old }
    ensures own { IsHandOf queue.now hand.new }
    ensures held { IsTrue result → Holds (in_pool hand.new) tag }
{
    match queue.read(hand, tag) {
        Err(TagFault::NoSuchTag) => false,
        _ => hand.holds(tag),
    }
}

/// A queue, as what the tests of all allocators have in common takes it.
pub(crate) struct TestedQueue {
    pub(crate) queue: Queue<u64>,
}

impl Drop for TestedQueue {
    fn drop(self) {
        let TestedQueue { queue: _queue } = self;
    }
}

impl TestedQueue {
    pub(crate) fn into_queue(self) -> Queue<u64>
        ensures { result ≡ self.queue }
    {
        let TestedQueue { queue } = self;
        queue
    }
}

/// Posts a tag with a note, if there is such a note.
fn post_noted(queue: &Queue<u64>, hand: &mut QueueHand<u64>, tag: u32, note: u64) -> Answer
    requires { IsHandOf queue.now hand.old }
    ensures { IsHandOf queue.now hand.new }
{
    if note > MOST_NOTE {
        return Answer::NoSuchCall;
    }
    answered(queue.post_noted(hand, tag, note).map(|()| Answer::Done))
}

impl TagAllocator for TestedQueue {
    type Caller = QueueHand<u64>;

    ghost is_own = { λ tested. IsHandOf tested.queue };

    ghost is_fact = { λ tested caller. Prim.hlevel codes };

    ghost holds = { λ hand. Holds (in_pool hand) };

    fn number(hand: &QueueHand<u64>) -> u32 {
        Numbered::number(hand)
    }

    fn act<W: Wait>(&self, rt: &W, hand: &mut QueueHand<u64>, call: Call) -> Answer {
        match call {
            Call::Get => answered(self.queue.get(hand).map(tag)),
            Call::GetReserved => answered(self.queue.get_reserved(hand).map(tag)),
            Call::GetShallow(depth) => answered(self.queue.get_shallow(hand, depth).map(tag)),
            Call::GetBatch(count) => answered(self.queue.get_batch(hand, count).map(batch)),
            Call::Clear(tag) => answered(self.queue.clear::<Ring>(hand, tag).map(Answer::Woken)),
            Call::ClearMask(first, mask) => {
                answered(
                    self.queue
                        .clear_mask::<Ring>(hand, first, mask)
                        .map(Answer::Woken),
                )
            }
            Call::Read(tag) => answered(self.queue.read(hand, tag).map(Answer::Value)),
            Call::Write(tag, new) => answered(self.queue.write(hand, tag, new).map(Answer::Value)),
            Call::Post(tag) => answered(self.queue.post(hand, tag).map(|()| Answer::Done)),
            Call::PostNoted(tag, note) => post_noted(&self.queue, hand, tag, note),
            Call::Take(tag) => answered(self.queue.take(hand, tag).map(|()| Answer::Done)),
            Call::ReadNote(tag) => answered(self.queue.read_note(hand, tag).map(Answer::Noted)),
            Call::Flush => Answer::Woken(0),
            _ => wait_or_look(rt, &self.queue, hand, call),
        }
    }

    fn clear_batch(&self, hand: &mut QueueHand<u64>, tags: &[u32]) -> Answer {
        answered(
            self.queue
                .clear_batch::<Ring>(hand, tags)
                .map(Answer::Woken),
        )
    }

    fn has(&self, hand: &mut QueueHand<u64>, tag: u32) -> bool {
        has(&self.queue, hand, tag)
    }

    fn meet(&self, first: &mut QueueHand<u64>, second: &mut QueueHand<u64>) {
        self.queue.meet(first, second);
    }

    fn apart(&self, first: &mut QueueHand<u64>, second: &mut QueueHand<u64>, tag: u32) {
        self.queue.apart(first, second, tag);
    }

    fn gather(
        self,
        hands: Vec<QueueHand<u64>>,
    ) -> Result<Totals, (GatherCause, TestedQueue, Vec<QueueHand<u64>>)>
        requires { All (IsHandOf self.queue) hands.items }
        ensures own { IfErr result (λ back. All (IsHandOf back.1.queue) back.2.items) }
        ensures others { IfErr result (λ back. (c : _) → IsHandOf self.queue c → IsHandOf back.1.queue c) }
    {
        let TestedQueue { queue } = self;
        match Queue::gather(queue, hands) {
            Ok(totals) => Ok(totals.tags),
            Err(fault) => Err((fault.cause, TestedQueue { queue: fault.queue }, fault.hands)),
        }
    }

    fn resize(
        self,
        alloc: Global,
        hands: Vec<QueueHand<u64>>,
        depth: u32,
    ) -> Result<(TestedQueue, Vec<QueueHand<u64>>), (ResizeCause, TestedQueue, Vec<QueueHand<u64>>)>
        requires { All (IsHandOf self.queue) hands.items }
        ensures ok { IfOk result (λ next. All (IsHandOf next.0.queue) next.1.items) }
        ensures own { IfErr result (λ back. All (IsHandOf back.1.queue) back.2.items) }
        ensures others { IfErr result (λ back. (c : _) → IsHandOf self.queue c → IsHandOf back.1.queue c) }
    {
        let TestedQueue { queue } = self;
        match Queue::resize(alloc, queue, hands, depth) {
            Ok((queue, hands)) => Ok((TestedQueue { queue }, hands)),
            Err(fault) => Err((fault.cause, TestedQueue { queue: fault.queue }, fault.hands)),
        }
    }
}
