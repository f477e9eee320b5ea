//! A whole text of evidence, as it is read.

ghost use Rattle.std.specs.Prelude.{◌≡◌, ◌≢◌, ◌≤◌, [], IfOk, length, take, drop};
ghost use Rattle.play_evidence.specs.Wholes.{AddsPiece, IsFirstPiece, IsWhole};

use crate::section_reading::read_play_section;
use crate::sections::PlaySection;
use cards::OutOfMemory;
use evidence::Damage;
use memchr::memmem;
use std::alloc::Global;

/// What is where two pieces meet: the end of a line, and a title.
const BORDER: &[u8] = b"\nDPP 1\n";

/// The sections of a text, and what was passed over.
#[derive(Drop)]
pub struct WholeEvidence {
    /// The sections, in their order.
    pub sections: Vec<PlaySection>,
    /// The pieces that are no sections.
    pub damage: Damage,
}

/// Returns where the first piece of a text ends.
fn end_of_piece(text: &[u8]) -> usize
    requires { text.now ≢ [] }
    ensures piece { IsFirstPiece text.now (take result text.now) (drop result text.now) }
    ensures within { result ≤ length text.now }
{
    match memmem::find(text, BORDER) {
        Some(place) => place + 1,
        None => text.len(),
    }
}

/// Adds the section of a piece that begins at this byte, or counts the piece as damaged. Fails only if memory runs out.
fn add_piece(
    alloc: Global,
    at: u64,
    piece: &[u8],
    whole: &mut WholeEvidence,
) -> Result<(), OutOfMemory>
    ensures { IfOk result (λ _. AddsPiece at piece.now whole.old whole.new) }
{
    match read_play_section(alloc, piece)? {
        Some(section) => whole.sections.push(section)?,
        None => whole.damage = whole.damage.with(at),
    }
    Ok(())
}

/// Returns the sections of a text, and counts its other pieces. A piece goes from a line `DPP 1`, or from the
/// beginning, to the next such line or to the end. Fails only if memory runs out.
pub fn read_sections(alloc: Global, text: &[u8]) -> Result<WholeEvidence, OutOfMemory>
    ensures { IfOk result (λ whole. IsWhole text.now whole.sections.items whole.damage) }
{
    let mut whole = WholeEvidence {
        sections: Vec::new(alloc),
        damage: Damage::none(),
    };
    let mut at = 0;
    while at < text.len() {
        let end = at + end_of_piece(&text[at..]);
        add_piece(alloc, at as u64, &text[at..end], &mut whole)?;
        at = end;
    }
    Ok(whole)
}
