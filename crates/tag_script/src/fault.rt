//! Why a world was not opened.
use tag_queue::QueueOpenFault;

/// Why a world was not opened.
#[derive(Clone, Copy, Debug, PartialEq, Eq)]
pub(crate) enum OpenFault {
    /// Out of memory.
    Memory,
    /// The options are not legal.
    Setup(QueueOpenFault),
}
