//! A section, as it is read.

ghost use Rattle.std.specs.Prelude.{◌≡◌, ◌↔◌, IfOk, IsTrue};
ghost use Rattle.play_evidence.specs.Readings.{SaysPlaySection};

use crate::finding::find_section;
use crate::section_writing::play_section_bytes;
use crate::sections::PlaySection;
use cards::OutOfMemory;
use std::alloc::Global;

/// Whether both texts are the same.
fn is_same(text: &[u8], other: &[u8]) -> bool
    ensures { IsTrue result ↔ (text.now ≡ other.now) }
{
    text == other
}

/// Returns the section whose text it is, or none if it is the text of none. The parts are looked for in whatever
/// spelling, and then the text is compared with the one that is written. Fails only if memory runs out.
pub fn read_play_section(alloc: Global, text: &[u8]) -> Result<Option<PlaySection>, OutOfMemory>
    ensures { IfOk result (SaysPlaySection text.now) }
{
    let Some(section) = find_section(alloc, text)? else {
        return Ok(None);
    };
    section.invariant();
    let bytes = match play_section_bytes(alloc, &section.contents()) {
        Ok(bytes) => bytes,
        Err(fault) => return Err(fault),
    };
    if !is_same(text, bytes.as_slice()) {
        return Ok(None);
    }
    Ok(Some(section))
}
