//! The statuses that calls return to C.
ghost use Rattle.std.specs.Prelude.{◌≡◌};
ghost use Rattle.tag_c.specs.Codes.{code_of, code_of_fault, code_of_open_fault};

use tag_pool::{OpenFault, TagFault};

/// How a call ended that has no tag or count to return.
#[derive(Clone, Copy, Debug, PartialEq, Eq)]
pub enum Status {
    /// Success.
    Done,
    /// `tag_pool` refused the call.
    Refused(TagFault),
    /// No free tag was found.
    NoTag,
    /// The handle is empty, or of the other kind.
    BadHandle,
    /// The handle to be filled is not empty.
    NotEmpty,
    /// All hands of the pool are out.
    NoHand,
    /// Not all hands of the pool are back.
    HandsOut,
    /// The number names no set: 0 is the ordinary one, and 1 the reserved one.
    BadKind,
    /// The list has fewer bits than the pool has tags.
    TooSmall,
    /// The call does not know the flag.
    BadFlag,
    /// The tags could not be opened, or not with another total.
    NotOpened(OpenFault),
    /// No cell was free for a hand that came back.
    NoBerth,
    /// A hand was missing where all of them came together: at the end, and the pool ended without totals, or for a resize, and
    /// the pool goes on as it was.
    HandLost,
    /// Tags are held or posted.
    InUse,
    /// Hands are listed among those that wait. C is not told it, as its `tags_leave` first ends the hand's wait.
    HandsWait,
    /// A hand would keep more tags than a cache can.
    CacheTooLarge,
}

impl Status {
    /// Returns the number of the status in tags.h: 0 for `Done`, and a negative one for each other. The numbers between that
    /// are missing here, as -8 and -9, are told by files in C, or by none.
    pub(crate) fn code(self) -> i32
        ensures { result ≡ code_of self }
    {
        match self {
            Status::Done => 0,
            Status::Refused(fault) => fault_code(fault),
            Status::NoTag => -10,
            Status::BadHandle => -12,
            Status::NotEmpty => -13,
            Status::NoHand => -14,
            Status::HandsOut => -15,
            Status::BadKind => -16,
            Status::TooSmall => -17,
            Status::BadFlag => -18,
            Status::NoBerth => -19,
            Status::HandLost => -20,
            Status::InUse => -29,
            Status::HandsWait => -30,
            Status::CacheTooLarge => -35,
            Status::NotOpened(fault) => open_fault_code(fault),
        }
    }
}

/// Returns the number of a refusal by `tag_pool`.
pub(crate) fn fault_code(fault: TagFault) -> i32
    ensures { result ≡ code_of_fault fault }
{
    match fault {
        TagFault::NoSuchTag => -1,
        TagFault::NoReserved => -2,
        TagFault::NotHeld => -3,
        TagFault::NotPosted => -4,
        TagFault::BadCount => -5,
        TagFault::TooShallow => -6,
        TagFault::Spent => -7,
    }
}

/// Returns the number of the reason why the tags could not be opened.
pub(crate) fn open_fault_code(fault: OpenFault) -> i32
    ensures { result ≡ code_of_open_fault fault }
{
    match fault {
        OpenFault::Memory => -21,
        OpenFault::TotalTooLarge => -22,
        OpenFault::ReservedTooLarge => -23,
        OpenFault::ShiftTooLarge => -24,
        OpenFault::CallerCount => -25,
        OpenFault::LifeTooLong => -26,
    }
}
