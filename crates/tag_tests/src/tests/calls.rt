//! Calls that the callers of a stage make one after another.
use crate::tests::allocator::TagAllocator;
use crate::tests::answers::Answer;
use crate::tests::stage::Stage;
use std::sync::Wait;
use tag_pool::{Kind, Waiter};

/// A call of a caller, with its arguments.
#[derive(Clone, Copy, Debug)]
pub(crate) enum Call {
    Place,
    Get,
    GetReserved,
    GetShallow(u32),
    GetBatch(u32),
    GetExactly(u32),
    GetBlocking,
    GetReservedBlocking,
    /// A get that tells nobody.
    GetQuietly,
    /// A get that waits until it would sleep once more than this.
    GetUntil(u32),
    GetReservedUntil(u32),
    Clear(u32),
    ClearQuietly(u32),
    /// A batch clear of two tags.
    ClearBoth(u32, u32),
    /// A clear of the tags of a mask, of which bit 0 is this one.
    ClearMask(u32, u64),
    Read(u32),
    Write(u32, u64),
    Post(u32),
    /// Posts a tag with a note.
    PostNoted(u32, u64),
    Take(u32),
    ReadNote(u32),
    Flush,
    /// Asks what is kept.
    Kept,
    Holds(u32),
    /// Asks whether all that the tags show agrees with the caller's holding this tag, whatever others do meanwhile.
    Agrees(u32),
    /// Begins to wait, as this waiter.
    ListSelf(Waiter),
    /// Begins to wait for a reserved tag, as this waiter.
    ListReserved(Waiter),
    /// Waits on as this waiter, with the turn that the hand had.
    ListAgain(Waiter),
    /// Ends a wait.
    GetUp,
    GetUpReserved,
    IsTold,
    IsToldReserved,
    /// A round of a wait as a sleeper, or its end.
    WaitOn(bool),
    WaitOnReserved(bool),
    FindsWaiters,
    FindsReservedWaiters,
    /// Sees to this many tags that became free.
    SeeTo(u32),
    SeeToReserved(u32),
    SeeToAll,
    SeeToAllReserved,
    /// Begins a wait and ends it at once.
    WaitInVain,
    Show(Kind),
    Busy,
    Dump(Kind),
    /// A show without a hand.
    PeekShow(Kind),
    PeekBusy,
    /// The calls of a queue alone.
    PrepareWait,
    FinishWait,
    Wakes,
}

impl<T: TagAllocator> Stage<T> {
    /// Makes a call with the caller at this index, and returns its answer, or `None` if there is no such caller.
    pub(crate) fn act<W: Wait>(&mut self, rt: &W, at: usize, call: Call) -> Option<Answer> {
        Some(self.tags.act(rt, self.callers.get_mut(at)?, call))
    }

    /// Clears these tags in a batch, and returns the answer.
    pub(crate) fn clear_batch(&mut self, at: usize, tags: &[u32]) -> Option<Answer> {
        Some(self.tags.clear_batch(self.callers.get_mut(at)?, tags))
    }
}
