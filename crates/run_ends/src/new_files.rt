//! Files that a run makes by their names.

ghost use Rattle.std.specs.Prelude.{◌≡◌, false, true};
ghost use Rattle.std.specs.Fs.{asks_append, asks_create_new, asks_truncate, asks_write};

use cards::Sink;
use std::fs::OpenOptions;
use std::rt::Files;
use streams::{CannotOpen, WriterSink, why_of};

/// Where files are made by their names, to be written.
pub trait NewFiles {
    ghost use Rattle.run_ends.specs.NamedFiles.{Opens, told_of};

    /// A file that was made.
    type Made: Sink + Drop;

    /// What may come of the making of a name: what the file has got, or why it can't be made.
    ghost may_make: { Self → Opens };

    /// Makes a file of this name to be written. If there is something of this name, it is left as it is.
    fn make_named(&self, name: &str) -> Result<Self::Made, CannotOpen>
        ensures makes { may_make self.now name.now (told_of Self.Made.state result) };
}

/// How a file is made to be written: only where there is nothing of its name.
fn to_be_made() -> OpenOptions
    ensures written { asks_write result ≡ true }
    ensures none_old { asks_create_new result ≡ true }
    ensures at_its_beginning { asks_append result ≡ false }
    ensures none_lost { asks_truncate result ≡ false }
{
    let mut how = OpenOptions::new();
    how.write(true).create_new(true);
    how
}

impl<R: Files> NewFiles for R {
    ghost use Rattle.run_ends.specs.NamedFiles.{MayBeAll};

    type Made = WriterSink<R::File>;

    ghost may_make = { λ _ _ told. MayBeAll R.File.contents told };

    fn make_named(&self, name: &str) -> Result<WriterSink<R::File>, CannotOpen> {
        match to_be_made().open(self, name) {
            Ok(file) => Ok(WriterSink::new(file)),
            Err(fault) => Err(why_of(fault.kind())),
        }
    }
}
