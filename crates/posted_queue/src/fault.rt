//! Why a tag is not submitted.

use thiserror::Error;

/// Why a tag was not submitted.
#[derive(Clone, Copy, Debug, PartialEq, Eq, Error)]
pub enum SubmitFault {
    /// No tag of the pool has this number.
    #[error("no tag has this number")]
    NoSuchTag,
    /// The hand does not hold the tag.
    #[error("the hand does not hold the tag")]
    NotHeld,
    /// The tag's token was not found posted, as where somebody took the tag past the queue and its number is still there.
    #[error("the tag is still in the queue")]
    StillQueued,
}
