//! A file of evidence, opened.

ghost use Rattle.std.specs.Prelude.{◌≡◌, true, false, IfOk};
ghost use Rattle.std.specs.Fs.{asks_read, asks_append, asks_create, asks_create_new, asks_truncate};
ghost use Rattle.evidence_solvers.specs.Opening.{IsBegun, IsLineEnd, IsOpened, LoseNothing, access_of};
ghost use Rattle.evidence_solvers.specs.declared.access.Access.TheVariants.{ReadOnly};

use crate::access::Access;
use crate::attempts::{OpenedAs, Unopened, open_as};
use crate::lengths::{FileLength, length_of};
use crate::tails::Tail;
use std::fs::{Files, OpenOptions};
use std::io;
use std::io::{Read, Seek, SeekFrom, Take};
use streams::{CannotOpen, why_of};

/// A file of evidence, opened twice.
#[derive(Drop)]
pub struct Opened<F> {
    /// To be read from its beginning. What is added later isn't read.
    pub front: Take<F>,
    /// To be added to.
    pub tail: Tail<F>,
    /// Whether it can be added to. If not, each write to the tail fails.
    pub access: Access,
    /// How many bytes it had.
    pub length: FileLength,
}

/// How a file is opened to be added to: each write goes to its end, and nothing that it holds is lost. A missing file
/// is made.
fn to_be_added_to() -> OpenOptions
    ensures read { asks_read result ≡ true }
    ensures at_its_end { asks_append result ≡ true }
    ensures made { asks_create result ≡ true }
    ensures also_old { asks_create_new result ≡ false }
    ensures none_lost { asks_truncate result ≡ false }
    ensures so { LoseNothing result }
{
    let mut how = OpenOptions::new();
    how.read(true).append(true).create(true);
    how
}

/// How a file is opened only to be read: nothing is made.
fn to_be_read() -> OpenOptions
    ensures alone { access_of result ≡ ReadOnly }
    ensures so { LoseNothing result }
{
    let mut how = OpenOptions::new();
    how.read(true);
    how
}

/// Whether a file of this length, which is at its beginning, begins as a PBN text does: with a directive or a tag pair.
fn begins_pbn<F: Read>(file: &mut F, length: FileLength) -> io::Result<bool>
    ensures { IfOk result (IsBegun F.remaining file.old file.new length.bytes) }
{
    if length.bytes() == 0 {
        return Ok(false);
    }
    let mut first = [0u8; 1];
    file.read_exact(&mut first)?;
    Ok(first[0] == b'%' || first[0] == b'[')
}

/// Whether the last line of a file of this length has its end.
fn ends_line<F: Read + Seek>(file: &mut F, length: FileLength) -> io::Result<bool>
    ensures { IfOk result (IsLineEnd F.stream_position F.remaining file.old file.new length.bytes) }
{
    if length.bytes() == 0 {
        return Ok(true);
    }
    file.seek(SeekFrom::Start(length.bytes().saturating_sub(1)))?;
    let mut last = [0u8; 1];
    file.read_exact(&mut last)?;
    Ok(last[0] == b'\n')
}

/// Opens a file to be read and to be added to. If the system lets nothing be added, it is opened to be read.
fn open_end<R: Files>(files: &R, path: &str) -> Result<OpenedAs<R::File>, Unopened>
    ensures { IfOk result (λ opened. LoseNothing opened.how) }
{
    let refused = match open_as(files, to_be_added_to(), path) {
        Ok(end) => return Ok(end),
        Err(refused) => refused,
    };
    if !refused.is_denied() {
        return Err(refused.alone());
    }
    match open_as(files, to_be_read(), path) {
        Ok(end) => Ok(end),
        Err(reading) => Err(refused.with(reading)),
    }
}

/// Opens a file to be read and to be added to. A missing file is made. One that begins as a PBN text does is refused.
/// If the last line has no end, a line feed is written. Nothing else is written, and no section is read. If the system
/// lets nothing be added, the file is opened to be read, and its last line stays as it is.
pub fn open_evidence<R: Files>(files: &R, path: &str) -> Result<Opened<R::File>, CannotOpen>
    ensures { IfOk result (IsOpened R.File.stream_position R.File.remaining R.File.contents) }
{
    let (mut end, access) = match open_end(files, path) {
        Ok(end) => end.into_parts(),
        Err(unopened) => return Err(unopened.why()),
    };
    let length = length_of(&end)?;
    match begins_pbn(&mut end, length) {
        Ok(false) => {}
        Ok(true) => return Err(CannotOpen::PbnText),
        Err(_) => return Err(CannotOpen::Refused),
    }
    let Ok(ends_line) = ends_line(&mut end, length) else {
        return Err(CannotOpen::Refused);
    };
    let front = match to_be_read().open(files, path) {
        Ok(front) => front,
        Err(fault) => return Err(why_of(fault.kind())),
    };
    let stays = ends_line || access.is_read_only();
    let written = u64::from(!stays);
    Ok(Opened {
        front: front.take(length.bytes().saturating_add(written)),
        tail: Tail::new(end, stays),
        access,
        length,
    })
}
