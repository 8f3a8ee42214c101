//! Why a queue can't be opened, and why a call of its own is refused.

use tag_pool::OpenFault;
use thiserror::Error;

/// Why a queue can't be opened. The causes are checked in this order, except that memory comes last.
#[derive(Clone, Copy, Debug, PartialEq, Eq, Error)]
pub enum QueueOpenFault {
    /// Out of memory.
    #[error("out of memory")]
    Memory,
    /// There would be more than 10,240 tags.
    #[error("more than 10240 tags")]
    TotalTooLarge,
    /// There would be more reserved tags than tags.
    #[error("more reserved tags than tags")]
    ReservedTooLarge,
    /// The shift is above 6.
    #[error("a shift above 6")]
    ShiftTooLarge,
    /// The number of callers is not 1 to 64.
    #[error("the number of callers is not from 1 to 64")]
    CallerCount,
    /// The life is above 2^48 tags.
    #[error("a life above 2^48 tags")]
    LifeTooLong,
    /// The cap is above 2^56 completions.
    #[error("a cap above 2^56 completions")]
    CapTooLarge,
}

impl From<OpenFault> for QueueOpenFault {
    ghost use Rattle.std.specs.Prelude.{◌≡◌};
    ghost use Rattle.tag_queue.specs.Faults.{of_pool};

    ghost from_gives = { λ fault told. told ≡ of_pool fault };

    fn from(fault: OpenFault) -> QueueOpenFault {
        match fault {
            OpenFault::Memory => QueueOpenFault::Memory,
            OpenFault::TotalTooLarge => QueueOpenFault::TotalTooLarge,
            OpenFault::ReservedTooLarge => QueueOpenFault::ReservedTooLarge,
            OpenFault::ShiftTooLarge => QueueOpenFault::ShiftTooLarge,
            OpenFault::CallerCount => QueueOpenFault::CallerCount,
            OpenFault::LifeTooLong => QueueOpenFault::LifeTooLong,
        }
    }
}

/// Why a call that waits in a group is refused.
#[derive(Clone, Copy, Debug, PartialEq, Eq, Error)]
pub enum WaitFault {
    /// There is no ordinary tag to wait for.
    #[error("no ordinary tag exists")]
    NoSuchTag,
    /// The caller is already in a wait group.
    #[error("the caller waits already")]
    Waiting,
    /// The caller is not in a wait group.
    #[error("the caller does not wait")]
    NotWaiting,
    /// The caller could win more tags than its life allows.
    #[error("the caller could win more tags than its life allows")]
    Spent,
}
