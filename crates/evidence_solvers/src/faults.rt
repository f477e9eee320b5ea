//! What can go wrong with a file of evidence.

use thiserror::Error;

/// Why a file lacks an answer.
#[derive(Clone, Copy, Debug, PartialEq, Eq, Error)]
pub enum KeepFault {
    /// Memory ran out, and at least one section was left out.
    #[error("out of memory")]
    OutOfMemory,
    /// An answer is no section, or its text is too long to be read again, and at least one section was left out.
    #[error("a piece is too long")]
    TooLong,
    /// A write or a sync failed, or only a part of a section was written. Nothing was written after that.
    #[error("writing failed")]
    Write,
}
