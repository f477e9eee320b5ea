//! The pieces of a whole text, and what each is.

ghost use Rattle.std.specs.Prelude.{◌≡◌, ◌+◌, ◌-◌, ◌^◌, ◌<◌, ◌≤◌, ◌⊎◌, true, false, min, length, drop, vec_len};
ghost use Rattle.std.specs.Prelude.{MatchBool, MatchResult};
ghost use Rattle.streams.specs.declared.inputs.InputFault.TheVariants.{OutOfMemory};
ghost use Rattle.evidence.specs.Pieces.{greatest_length, reading_of, IsNext, StopsSections};
ghost use Rattle.evidence.specs.Parts.{IsPartOf};
ghost use Rattle.evidence.specs.Cuts.{IsNextCut};
ghost use Rattle.evidence.specs.Ends.{ReadsOn, Shortens, FindsEnd};

use crate::section_reading::read_section;
use crate::sections::Section;
use cards::Source;
use memchr::memmem;
use std::alloc::Global;
use std::mem;
use streams::InputFault;

/// How many bytes are asked for at a time.
pub(crate) const PIECE: usize = 16_384;

/// What stands where two pieces meet: the end of a line, and a title.
const BORDER: &[u8] = b"\nDDE 1\n";

/// How many bytes of a border can be held where the next is not.
const BORDER_FRONT: usize = 6;

/// The most bytes that the text of a section may have: 512 MiB.
const MOST_BYTES: usize = 536_870_912;

/// What comes next of a text.
#[derive(Drop)]
pub enum Part {
    /// A section.
    Found(Section),
    /// A piece that is the text of no section, or of over 512 MiB.
    Damaged {
        /// The byte where it begins, counted from 0.
        at: u64,
    },
    /// The end of the text.
    End,
}

/// A piece of a text, as it was cut.
#[derive(Drop)]
pub struct Piece {
    /// The byte where it begins, counted from 0.
    at: u64,
    /// Its bytes. If it is too long, the first of them were let go.
    bytes: Vec<u8>,
    /// Whether bytes were let go.
    is_long: bool,
}

impl Piece {
    /// How many bytes of it are held.
    pub fn len(&self) -> usize
        ensures { result ≡ vec_len self.now.bytes }
    {
        self.bytes.len()
    }

    /// What the piece is. Fails only if memory runs out.
    pub fn read(&self, alloc: Global) -> Result<Part, InputFault>
        ensures { MatchResult result
            (IsPartOf self.now.is_long self.now.at self.now.bytes.items)
            (λ fault. fault ≡ OutOfMemory) }
    {
        read_part(alloc, self.at, self.is_long, self.bytes.as_slice())
    }
}

/// Whether a piece whose first bytes were let go, or this one, has more bytes than a section may have.
fn is_too_long(is_long: bool, piece: &[u8]) -> bool
    ensures { MatchBool result
        ((is_long ≡ true) ⊎ ((is_long ≡ false) × (greatest_length < length piece.now)))
        ((is_long ≡ false) × (length piece.now ≤ greatest_length)) }
{
    is_long || piece.len() > MOST_BYTES
}

/// What a piece is that begins at this byte. Of one that is long the first bytes were let go, and it is damaged. Fails
/// only where memory runs out.
fn read_part(alloc: Global, at: u64, is_long: bool, piece: &[u8]) -> Result<Part, InputFault>
    ensures { MatchResult result
        (IsPartOf is_long at piece.now)
        (λ fault. fault ≡ OutOfMemory) }
{
    if is_too_long(is_long, piece) {
        return Ok(Part::Damaged { at });
    }
    match read_section(alloc, piece) {
        Ok(Some(section)) => Ok(Part::Found(section)),
        Ok(None) => Ok(Part::Damaged { at }),
        Err(_) => Err(InputFault::OutOfMemory),
    }
}

/// Takes the first bytes out.
fn remove_front(bytes: &mut Vec<u8>, count: usize)
    requires { count ≤ vec_len bytes.old }
    ensures { bytes.new.items ≡ drop count bytes.old.items }
{
    let left = bytes.len() - count;
    bytes.copy_within(count.., 0);
    bytes.truncate(left);
}

/// The pieces of a text, as they are read from a source.
#[derive(Drop)]
pub(crate) struct Pieces<S> {
    pub(crate) source: S,
    /// Bytes that were read: the next piece begins with them.
    pub(crate) held: Vec<u8>,
    /// How many bytes stand before them.
    pub(crate) before: u64,
    /// Where the source puts bytes.
    pub(crate) buffer: [u8; PIECE],
}

impl<S: Source> Pieces<S> {
    /// How many bytes stand before the next piece.
    fn place(&self) -> u64
        ensures is { result ≡ self.now.before }
        ensures fits { result < 2 ^ 64 }
    {
        self.before
    }

    /// Reads on. Answers whether there was more.
    fn fill(&mut self) -> Result<bool, InputFault>
        ensures reads { ReadsOn (S.state self.old.source) (S.state self.new.source) self.old.held.items
            self.new.held.items result }
        ensures before { self.new.before ≡ self.old.before }
    {
        let Ok(count) = self.source.read(&mut self.buffer) else {
            return Err(InputFault::Read);
        };
        if count == 0 {
            return Ok(false);
        }
        match self.held.extend_from_slice(&self.buffer[..count]) {
            Ok(()) => Ok(true),
            Err(_) => Err(InputFault::OutOfMemory),
        }
    }

    /// Lets the first bytes go, where there are more than a section may have before the last ones, in which a border
    /// may begin. Answers where a border may begin, and whether bytes were let go, now or before.
    fn shorten(&mut self, is_long: bool) -> (usize, bool)
        ensures bytes { Shortens self.old.held.items self.new.held.items self.old.before self.new.before
            is_long result.1 }
        ensures searched { result.0 ≡ length self.new.held.items - 6 }
        ensures source { self.new.source ≡ self.old.source }
    {
        let before = self.before;
        let searched = self.held.len().saturating_sub(BORDER_FRONT);
        if searched <= MOST_BYTES {
            return (searched, is_long);
        }
        remove_front(&mut self.held, searched);
        self.before = before.saturating_add(searched as u64);
        (0, true)
    }

    /// Where the next piece ends in the bytes that are held, and whether its first bytes were let go, since it is too
    /// long.
    fn find_end(&mut self) -> Result<(usize, bool), InputFault>
        ensures { MatchResult result
            (λ found. FindsEnd (S.state self.old.source) (S.state self.new.source) self.old.held.items
            self.new.held.items self.old.before self.new.before found.0 found.1)
            (StopsSections (S.state self.old.source) (S.state self.new.source)) }
    {
        let mut searched = 0;
        let mut is_long = false;
        for _turn in 0..u64::MAX {
            if let Some(place) = memmem::find(&self.held[searched..], BORDER) {
                return Ok((searched + place + 1, is_long));
            }
            (searched, is_long) = self.shorten(is_long);
            if !self.fill()? {
                return Ok((self.held.len(), is_long));
            }
        }
        Err(InputFault::Read)
    }

    /// What comes next.
    pub(crate) fn next(&mut self, alloc: Global) -> Result<Part, InputFault>
        ensures { MatchResult result
            (IsNext (reading_of (S.state self.old.source) self.old.held.items self.old.before)
            (reading_of (S.state self.new.source) self.new.held.items self.new.before))
            (StopsSections (S.state self.old.source) (S.state self.new.source)) }
    {
        let at = self.place();
        let (end, is_long) = self.find_end()?;
        if end == 0 {
            return Ok(Part::End);
        }
        let part = read_part(alloc, at, is_long, &self.held[..end]);
        remove_front(&mut self.held, end);
        self.before = self.before.saturating_add(end as u64);
        part
    }

    /// The next piece, as it is cut; none at the end.
    pub(crate) fn cut(&mut self, alloc: Global) -> Result<Option<Piece>, InputFault>
        ensures { MatchResult result
            (IsNextCut (reading_of (S.state self.old.source) self.old.held.items self.old.before)
            (reading_of (S.state self.new.source) self.new.held.items self.new.before))
            (StopsSections (S.state self.old.source) (S.state self.new.source)) }
    {
        let at = self.place();
        let (end, is_long) = self.find_end()?;
        if end == 0 {
            return Ok(None);
        }
        // what is held becomes the piece, and only the few bytes after it are copied
        let Ok(after) = Vec::from_slice(alloc, &self.held[end..]) else {
            return Err(InputFault::OutOfMemory);
        };
        let mut bytes = mem::replace(&mut self.held, after);
        bytes.truncate(end);
        self.before = self.before.saturating_add(end as u64);
        Ok(Some(Piece { at, bytes, is_long }))
    }
}
