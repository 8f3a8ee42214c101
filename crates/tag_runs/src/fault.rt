//! Faults of a run.

use thiserror::Error;

/// Why a run failed.
#[derive(Debug, PartialEq, Eq, Drop, Error)]
pub enum RunFault {
    /// Out of memory. Nothing was written.
    #[error("out of memory")]
    Memory,
    /// The reader failed. Nothing was written.
    #[error("read fault")]
    Read,
    /// The writer failed. Any part of the output may have been written.
    #[error("write fault")]
    Write,
    /// The input is longer than 16,777,216 bytes. Nothing was written.
    #[error("input too long")]
    TooLong,
}
