//! Stages of a queue.
use crate::tests::answers::Answer;
use crate::tests::calls::Call;
use crate::tests::queue::TestedQueue;
use crate::tests::stage::Stage;
use crate::tests::steps::Step;
use crate::tests::totals::{FILL, tags, totals};
use std::alloc::Global;
use std::process::Abort;
use std::sync::Wait;
use std::test::*;
use tag_queue::{MAX_CAP, Options, Queue, QueueTotals, Totals};
use wake_book::{BookTotals, GroupTotals};

/// With what a queue is opened for a test.
#[derive(Clone, Copy)]
pub(crate) struct Setting {
    pub(crate) options: Options,
    /// Completions that a hand may count.
    pub(crate) cap: u64,
}

/// A queue of so many ordinary tags, for so many hands, with the highest life and cap.
pub(crate) fn queue(depth: u32, hands: u32) -> Setting {
    Setting {
        options: tags(depth, 0, hands),
        cap: MAX_CAP,
    }
}

impl Setting {
    /// The same with words of `2^shift` tags.
    pub(crate) fn in_words(self, shift: u32) -> Setting {
        Setting {
            options: self.options.with_shift(shift),
            ..self
        }
    }

    /// The same, with so many of the tags reserved.
    pub(crate) fn with_reserved(self, reserved: u32) -> Setting {
        Setting {
            options: self.options.with_reserved(reserved),
            ..self
        }
    }

    /// The same, where a hand may count so many completions.
    pub(crate) fn with_cap(self, cap: u64) -> Setting {
        Setting { cap, ..self }
    }
}

/// Totals after a run in which no wakeup is outstanding and nobody waits: of tags, completions counted and charged, in
/// how many charges, and wakeups, each of which was used.
pub(crate) fn all_totals(
    tags: Totals,
    (counted, charged, charges): (u64, u64, u64),
    issued: u64,
) -> QueueTotals {
    QueueTotals {
        tags,
        book: BookTotals {
            counted,
            charged,
            charges,
        },
        groups: GroupTotals {
            issued,
            used: issued,
            granted: 0,
            waiting: 0,
        },
    }
}

/// Totals after a run in which nobody waits, so that no completion is counted: tags got, given back, held and posted.
pub(crate) fn unwaited(got: u64, back: u64, held: u64, posted: u64) -> QueueTotals {
    all_totals(totals(got, back, held, posted), (0, 0, 0), 0)
}

impl Stage<TestedQueue> {
    /// Opens a queue whose slots contain `FILL`.
    pub(crate) fn of_queue(alloc: Global, setting: Setting) -> Result<Stage<TestedQueue>, Fail> {
        let (queue, hands) = Queue::open(alloc, setting.options, setting.cap, FILL)?;
        Ok(Stage::of(alloc, TestedQueue { queue }, hands))
    }

    /// Takes the steps, and closes the queue, whose totals must be these.
    pub(crate) fn play_to_sums<R: Abort + AllocGlobal + Wait>(
        self,
        rt: &R,
        steps: &[Step<'_>],
        sums: QueueTotals,
    ) -> Result<(), Fail> {
        let found = self.play(rt, steps)?.close_queue()?;
        assert_eq!(rt; found, sums);
        Ok(())
    }

    /// Gathers the hands, and returns all totals.
    pub(crate) fn close_queue(self) -> Result<QueueTotals, Fail> {
        let Stage {
            tags,
            callers,
            away,
        } = self;
        drop(away);
        match Queue::gather(tags.into_queue(), callers) {
            Ok(sums) => Ok(sums),
            Err(_) => Err(Fail::new("a hand is missing")),
        }
    }
}

/// Opens a queue and makes the calls, which must have the answers beside them.
pub(crate) fn expect<R: Abort + AllocGlobal + Wait>(
    rt: &R,
    setting: Setting,
    said: &[(usize, Call, Answer)],
) -> Result<(), Fail> {
    Stage::of_queue(rt.alloc(), setting)?.play(rt, &[Step::Calls(said)])?;
    Ok(())
}

/// Opens a queue, takes the steps, and gathers the hands. The totals must be these.
pub(crate) fn expect_totals<R: Abort + AllocGlobal + Wait>(
    rt: &R,
    setting: Setting,
    steps: &[Step<'_>],
    totals: QueueTotals,
) -> Result<(), Fail> {
    Stage::of_queue(rt.alloc(), setting)?.play_to_sums(rt, steps, totals)
}
