//! Files that a run opens by their names, to be read and to be added to.

ghost use Rattle.board_subcommands.specs.Table.KeptFiles.{opened_of};

use evidence_solvers::{Opened, open_evidence};
use std::fs::OpenFile;
use std::io::{Read, Seek, Write};
use std::rt::Files;
use streams::CannotOpen;

/// Where files are opened by their names, to be read and to be added to.
pub trait KeptFiles {
    ghost use Rattle.board_subcommands.specs.Table.KeptFiles.{OpensToKeep};

    /// A file that was opened.
    type Kept: Read + Write + Seek + OpenFile + Drop + Send;

    /// What may come of the opening of a name: what the file tells and holds, or why it can't be opened.
    ghost may_keep: { Self → OpensToKeep };

    /// Opens the file of this name to be read, from its beginning on, and to be added to. A missing file is made. A
    /// file that can only be read is opened too. Anything but a regular file is refused. The file tells as much as it
    /// holds then.
    fn open_kept(&self, name: &str) -> Result<Opened<Self::Kept>, CannotOpen>
        ensures opens { may_keep self.now name.now (opened_of Self.Kept.remaining Self.Kept.contents result) };
}

impl<R: Files> KeptFiles for R
where
    R::File: Send,
{
    ghost use Rattle.board_subcommands.specs.Table.KeptFiles.{MayBeAny};

    type Kept = R::File;

    ghost may_keep = { λ _ _ told. MayBeAny R.File.remaining R.File.contents told };

    fn open_kept(&self, name: &str) -> Result<Opened<R::File>, CannotOpen> {
        open_evidence(self, name)
    }
}
