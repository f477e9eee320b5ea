//! The reading of lines, a byte at a time, so that no byte behind a line is taken from the source.

ghost use Rattle.std.specs.Prelude.{◌≡◌, ◌∷◌, [], ◌++◌, take};
ghost use Rattle.play_dialogues.specs.Words.{is_blank, letters_of};
ghost use Rattle.play_dialogues.specs.Lines.{ReadsByte, ReadsLine};

use crate::words::{Typed, typed_of};
use arrayvec::ArrayVec;
use cards::{DeviceFault, Source};

/// How many letters of a line are kept: one more than the longest word has.
pub(crate) const MOST_LETTERS: usize = 6;

/// Reads a byte, if one is left.
fn next_byte<S: Source>(source: &mut S) -> Result<Option<u8>, DeviceFault>
    ensures { ReadsByte (S.state source.old) (S.state source.new) result }
{
    let mut buffer = [0u8; 1];
    let count = source.read(&mut buffer)?;
    if count == 0 {
        Ok(None)
    } else {
        Ok(Some(buffer[0]))
    }
}

/// Whether the byte is a blank, a tab or a carriage return.
fn is_blank(byte: u8) -> bool
    ensures { result ≡ is_blank byte }
{
    byte == b' ' || byte == b'\t' || byte == b'\r'
}

/// Keeps the letter of a byte, unless that is a blank or enough letters are kept.
#[tactic(auto, using(crate::proofs::LetterLaws::keeping))]
pub(crate) fn keep(letters: &mut ArrayVec<u8, MOST_LETTERS>, byte: u8)
    ensures { letters.new.items ≡ take 6 (letters.old.items ++ letters_of (byte ∷ [])) }
{
    if letters.len() == MOST_LETTERS {
        return;
    }
    if !is_blank(byte) {
        letters.push(byte.to_ascii_uppercase());
    }
}

/// Reads a line, if one is left, and answers what it says.
pub(crate) fn next_line<S: Source>(source: &mut S) -> Result<Option<Typed>, DeviceFault>
    ensures { ReadsLine (S.state source.old) (S.state source.new) result }
{
    let mut letters = ArrayVec::<u8, MOST_LETTERS>::new();
    for turn in 0..u64::MAX {
        let Some(byte) = next_byte(source)? else {
            if turn == 0 {
                return Ok(None);
            }
            return Ok(Some(typed_of(letters.as_slice())));
        };
        if byte == b'\n' {
            return Ok(Some(typed_of(letters.as_slice())));
        }
        keep(&mut letters, byte);
    }
    Err(DeviceFault)
}
