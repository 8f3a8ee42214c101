//! The outcomes of calls, as answers.
ghost use Rattle.std.specs.Prelude.{◌≡◌};
ghost use Rattle.tag_script.specs.Commands.{told};
ghost use Rattle.tag_script.specs.SharedCommands.{resize_answer, waited};
ghost use Rattle.tag_script.specs.declared.answer.Answer.TheVariants as answers;

use crate::answer::Answer;
use tag_queue::{Left, ResizeCause, TagFault, WaitFault};

impl Answer {
    /// The answer of a get.
    pub(crate) fn to_get(outcome: Result<Option<u32>, TagFault>) -> Answer
        ensures { result ≡ told answers.Tag outcome }
    {
        outcome.map_or_else(Answer::Refused, Answer::Tag)
    }

    /// The answer of a batch get.
    pub(crate) fn to_batch(outcome: Result<Option<(u32, u64)>, TagFault>) -> Answer
        ensures { result ≡ told answers.Batch outcome }
    {
        outcome.map_or_else(Answer::Refused, Answer::Batch)
    }

    /// The answer of a call that wakes waiters, with their number.
    pub(crate) fn to_clear(outcome: Result<u32, TagFault>) -> Answer
        ensures { result ≡ told answers.Done outcome }
    {
        outcome.map_or_else(Answer::Refused, Answer::Done)
    }

    /// The answer of a call that wakes nobody.
    pub(crate) fn to_done(outcome: Result<(), TagFault>) -> Answer
        ensures { result ≡ told (λ done. answers.Done 0) outcome }
    {
        outcome.map_or_else(Answer::Refused, |()| Answer::Done(0))
    }

    /// The answer of a wait.
    pub(crate) fn to_wait(outcome: Result<u32, WaitFault>) -> Answer
        ensures { result ≡ waited answers.Group outcome }
    {
        outcome.map_or_else(Answer::NotWaited, Answer::Group)
    }

    /// The answer of the end of a wait.
    pub(crate) fn to_leave(outcome: Result<Left, WaitFault>) -> Answer
        ensures { result ≡ waited answers.Left outcome }
    {
        outcome.map_or_else(Answer::NotWaited, Answer::Left)
    }

    /// The answer of a resize.
    pub(crate) fn to_resize(outcome: Result<(), ResizeCause>) -> Answer
        ensures { result ≡ resize_answer outcome }
    {
        outcome.map_or_else(Answer::NotResized, |()| Answer::Done(0))
    }
}
