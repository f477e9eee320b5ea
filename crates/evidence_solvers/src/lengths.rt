//! How many bytes a regular file has.

ghost use Rattle.std.specs.Prelude.{◌≡◌, IfOk, SomeIff};
ghost use Rattle.std.specs.Fs.{IsFile, file_type, metadata_len};

use std::fs::{Metadata, OpenFile};
use streams::CannotOpen;

/// How many bytes a regular file has, as its metadata say. Only [`length_of`] makes one.
#[derive(Clone, Copy, Debug, PartialEq, Eq)]
pub struct FileLength {
    bytes: u64,
}

impl FileLength {
    /// The number.
    pub fn bytes(self) -> u64
        ensures { result ≡ self.bytes }
    {
        self.bytes
    }
}

/// How many bytes a regular file has. `None` for anything else, such as a pipe or a folder.
fn regular_length(metadata: &Metadata) -> Option<u64>
    ensures { SomeIff result (IsFile (file_type metadata.now)) (metadata_len metadata.now) }
{
    if !metadata.is_file() {
        return None;
    }
    Some(metadata.len())
}

/// Asks for the metadata of a file, and returns how many bytes it has, if it is a regular file.
pub(crate) fn length_of<F: OpenFile>(file: &F) -> Result<FileLength, CannotOpen> {
    let Ok(metadata) = file.metadata() else {
        return Err(CannotOpen::Refused);
    };
    match regular_length(&metadata) {
        Some(bytes) => Ok(FileLength { bytes }),
        None => Err(CannotOpen::NotAFile),
    }
}
