//! Steps that a test takes with a stage.
use crate::tests::allocator::TagAllocator;
use crate::tests::answers::Answer;
use crate::tests::calls::Call;
use crate::tests::stage::Stage;
use std::process::Abort;
use std::sync::Wait;
use std::test::*;
use tag_pool::{GatherCause, ResizeCause, Totals};

/// What is done with a stage, and what must come of it.
#[derive(Clone, Copy)]
pub(crate) enum Step<'a> {
    /// Callers, by their indexes, make calls that have these answers.
    Calls(&'a [(usize, Call, Answer)]),
    /// A caller makes this many gets, each of which wins a tag.
    Gets(usize, u32),
    /// A caller clears each of the tags below this number, which tells nobody.
    Clears(usize, u32),
    /// A caller clears these tags in a batch, and has this answer.
    ClearBatch(usize, &'a [u32], Answer),
    /// A caller meets the last one.
    Meet(usize),
    /// A caller holds this tag, and so the last one does not.
    Apart(usize, u32),
    SendAway(usize),
    BringBack,
    Lose(usize),
    /// This many callers are present.
    Count(usize),
    /// The callers that are present have these numbers.
    Present(&'a [u32]),
    /// A gather is refused, since this caller is missing.
    GatherMisses(u32),
    /// A resize to this many tags is refused.
    ResizeFails(u32, ResizeCause),
    Resize(u32),
}

impl<T: TagAllocator> Stage<T> {
    /// Takes the steps in order.
    pub(crate) fn play<R: Abort + AllocGlobal + Wait>(
        self,
        rt: &R,
        steps: &[Step<'_>],
    ) -> Result<Stage<T>, Fail> {
        let mut stage = self;
        for step in steps {
            stage = stage.step(rt, *step)?;
        }
        Ok(stage)
    }

    /// Takes the steps, and closes the tags, whose totals must be these.
    pub(crate) fn play_to<R: Abort + AllocGlobal + Wait>(
        self,
        rt: &R,
        steps: &[Step<'_>],
        totals: Totals,
    ) -> Result<(), Fail> {
        let sums = self.play(rt, steps)?.close()?;
        assert_eq!(rt; sums, totals);
        Ok(())
    }

    fn step<R: Abort + AllocGlobal + Wait>(self, rt: &R, step: Step<'_>) -> Result<Stage<T>, Fail> {
        match step {
            Step::Calls(said) => Ok(self.expect_calls(rt, said)),
            Step::Gets(at, count) => Ok(self.expect_gets(rt, at, count)),
            Step::Clears(at, count) => Ok(self.expect_clears(rt, at, count)),
            Step::ClearBatch(at, tags, answer) => Ok(self.expect_clear(rt, at, tags, answer)),
            Step::Meet(at) => self.expect_meeting(rt, at),
            Step::Apart(at, tag) => self.expect_apart(rt, at, tag),
            Step::SendAway(at) => self.sent_away(at),
            Step::BringBack => self.brought_back(),
            Step::Lose(at) => Ok(self.lost(at)),
            Step::Count(count) => Ok(self.expect_count(rt, count)),
            Step::Present(numbers) => Ok(self.expect_present(rt, numbers)),
            Step::GatherMisses(caller) => self.expect_missing(rt, caller),
            Step::ResizeFails(count, cause) => self.expect_refused(rt, count, cause),
            Step::Resize(count) => self.resized(rt.alloc(), count),
        }
    }

    fn expect_calls<R: Abort + Wait>(mut self, rt: &R, said: &[(usize, Call, Answer)]) -> Stage<T> {
        for (place, (at, call, answer)) in said.iter().enumerate() {
            let found = self.act(rt, *at, *call).unwrap_or(Answer::Nobody);
            assert_eq!(rt; found, *answer, "to call {place}, {call:?} by caller {at}");
        }
        self
    }

    fn expect_gets<R: Abort + Wait>(mut self, rt: &R, at: usize, count: u32) -> Stage<T> {
        for place in 0..count {
            let found = self.act(rt, at, Call::Get);
            assert!(rt;
                matches!(found, Some(Answer::Tag(_))),
                "{found:?} to get {place}"
            );
        }
        self
    }

    fn expect_clears<R: Abort + Wait>(mut self, rt: &R, at: usize, count: u32) -> Stage<T> {
        for tag in 0..count {
            let found = self.act(rt, at, Call::Clear(tag));
            assert_eq!(rt; found, Some(Answer::Told(0)), "to the clear of {tag}");
        }
        self
    }

    fn expect_clear<R: Abort>(
        mut self,
        rt: &R,
        at: usize,
        tags: &[u32],
        answer: Answer,
    ) -> Stage<T> {
        assert_eq!(rt; self.clear_batch(at, tags), Some(answer));
        self
    }

    fn expect_meeting<R: Abort>(mut self, rt: &R, at: usize) -> Result<Stage<T>, Fail> {
        assert!(rt; self.meet(at)?);
        Ok(self)
    }

    fn expect_apart<R: Abort>(mut self, rt: &R, at: usize, tag: u32) -> Result<Stage<T>, Fail> {
        assert!(rt; self.apart(at, tag)?);
        Ok(self)
    }

    fn sent_away(mut self, at: usize) -> Result<Stage<T>, Fail> {
        self.send_away(at)?;
        Ok(self)
    }

    fn brought_back(mut self) -> Result<Stage<T>, Fail> {
        self.bring_back()?;
        Ok(self)
    }

    fn lost(mut self, at: usize) -> Stage<T> {
        self.lose(at);
        self
    }

    fn expect_count<R: Abort>(self, rt: &R, count: usize) -> Stage<T> {
        assert_eq!(rt; self.count(), count);
        self
    }

    fn expect_present<R: Abort>(self, rt: &R, numbers: &[u32]) -> Stage<T> {
        assert_eq!(rt; self.count(), numbers.len());
        for (at, number) in numbers.iter().enumerate() {
            assert_eq!(rt; self.number(at), Some(*number));
        }
        self
    }

    fn expect_missing<R: Abort>(self, rt: &R, caller: u32) -> Result<Stage<T>, Fail> {
        let (cause, stage) = self.missing()?;
        assert_eq!(rt; cause, GatherCause::Missing(caller));
        Ok(stage)
    }

    fn expect_refused<R: Abort + AllocGlobal>(
        self,
        rt: &R,
        count: u32,
        cause: ResizeCause,
    ) -> Result<Stage<T>, Fail> {
        let (found, stage) = self.refused(rt.alloc(), count)?;
        assert_eq!(rt; found, cause);
        Ok(stage)
    }
}
