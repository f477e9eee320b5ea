//! Files that a run opens by their names, to be read.

ghost use Rattle.std.specs.Prelude.{◌≡◌, IfOk};
ghost use Rattle.run_ends.specs.NamedFiles.{told_of};

use cards::Source;
use std::fs;
use std::io::Read;
use std::rt::Files;
use streams::{CannotOpen, ReaderSource, why_of};

/// Where files are opened by their names, to be read.
pub trait NamedFiles {
    ghost use Rattle.run_ends.specs.NamedFiles.{Opens};

    /// A file that was opened.
    type Opened: Source + Drop;

    /// What may come of the opening of a name: what the file tells, or why it can't be opened.
    ghost may_open: { Self → Opens };

    /// Opens the file of this name to be read, from its beginning to its end. It may be a pipe.
    fn open_named(&self, name: &str) -> Result<Self::Opened, CannotOpen>
        ensures opens { may_open self.now name.now (told_of Self.Opened.state result) }
        ensures none_failed { IfOk result (λ file. (Self.Opened.state file).failed ≡ 0) };
}

impl<R: Files> NamedFiles for R {
    ghost use Rattle.run_ends.specs.NamedFiles.{MayBeAll};

    type Opened = ReaderSource<R::File>;

    ghost may_open = { λ _ _ told. MayBeAll R.File.remaining told };

    fn open_named(&self, name: &str) -> Result<ReaderSource<R::File>, CannotOpen> {
        match fs::open(self, name) {
            Ok(file) => Ok(ReaderSource::new(file)),
            Err(fault) => Err(why_of(fault.kind())),
        }
    }
}

/// Why a file that was named is of no use.
#[derive(Clone, Copy, Debug, PartialEq, Eq)]
pub enum FileFault {
    /// It can't be opened, for this reason.
    Open(CannotOpen),
    /// It can't be read to its end.
    Read,
}
