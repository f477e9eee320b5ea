//! Why a file can't be opened.

ghost use Rattle.std.specs.Prelude.{◌≡◌};
ghost use Rattle.streams.specs.Opening.{why_of};

use std::io::ErrorKind;
use thiserror::Error;

/// Why a file can't be opened.
#[derive(Clone, Copy, Debug, PartialEq, Eq, Error)]
pub enum CannotOpen {
    /// The file, or a folder of its path, isn't there.
    #[error("no such file")]
    Missing,
    /// The file may not be opened, or a file that isn't there may not be made.
    #[error("permission denied")]
    Denied,
    /// It is a folder, a pipe or a device.
    #[error("not a regular file")]
    NotAFile,
    /// A new file was to be made, and something of its name is there.
    #[error("the file is there already")]
    Exists,
    /// Evidence was to be added to it, and it begins as a PBN text does.
    #[error("a PBN file, not a file of evidence")]
    PbnText,
    /// The system has another reason.
    #[error("the system does not open it")]
    Refused,
}

/// Why a file can't be opened, by what the system says.
pub fn why_of(kind: ErrorKind) -> CannotOpen
    ensures { result ≡ why_of kind }
{
    match kind {
        ErrorKind::NotFound | ErrorKind::NotADirectory => CannotOpen::Missing,
        ErrorKind::PermissionDenied | ErrorKind::ReadOnlyFilesystem => CannotOpen::Denied,
        ErrorKind::IsADirectory => CannotOpen::NotAFile,
        ErrorKind::AlreadyExists => CannotOpen::Exists,
        _ => CannotOpen::Refused,
    }
}
