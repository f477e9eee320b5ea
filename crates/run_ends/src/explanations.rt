//! What explains a fault, on a second line.

ghost use Rattle.std.specs.Prelude.{◌≡◌, option_map};
ghost use Rattle.cards.specs.Devices.{Writes};
ghost use Rattle.run_ends.specs.Explanations.{file_explanation, opening_line, reason_text, second_line, shown_byte};
ghost use Rattle.run_ends.specs.Explanations.{shown_name, text_explanation};

use crate::named_files::FileFault;
use cards::{DeviceFault, Sink, write_all};
use pbn_deals::PbnFault;
use streams::CannotOpen;

/// Writes a line after two blanks. Without a text, nothing is written.
pub(crate) fn write_second_line<E: Sink>(text: &str, errors: &mut E) -> Result<(), DeviceFault>
    ensures { Writes (E.state errors.old) (E.state errors.new) (second_line text.now) result }
{
    if text.is_empty() {
        return Ok(());
    }
    write_all(errors, b"  ")?;
    write_all(errors, text.as_bytes())?;
    write_all(errors, b"\n")
}

/// Writes the line that says why a file can't be opened, after its name if it has one.
pub(crate) fn write_opening<E: Sink>(
    name: Option<&str>,
    why: CannotOpen,
    errors: &mut E,
) -> Result<(), DeviceFault>
    ensures { Writes (E.state errors.old) (E.state errors.new)
        (opening_line (option_map (λ text. text.now) name.entry) why) result }
{
    let Some(name) = name else {
        return write_second_line(reason_text(why), errors);
    };
    write_all(errors, b"  ")?;
    write_name(name, errors)?;
    write_all(errors, b": ")?;
    write_all(errors, reason_text(why).as_bytes())?;
    write_all(errors, b"\n")
}

/// Writes a name.
fn write_name<E: Sink>(name: &str, errors: &mut E) -> Result<(), DeviceFault>
    ensures { Writes (E.state errors.old) (E.state errors.new) (shown_name name.now) result }
{
    for byte in name.as_bytes() {
        write_all(errors, &[shown_byte(*byte)])?;
    }
    Ok(())
}

/// A byte of a name as it is shown: a question mark stands for a control character.
fn shown_byte(byte: u8) -> u8
    ensures { result ≡ shown_byte byte }
{
    if byte < 32 || byte == 127 { b'?' } else { byte }
}

/// Why a file can't be opened.
fn reason_text(why: CannotOpen) -> &'static str
    ensures { result.now ≡ reason_text why }
{
    match why {
        CannotOpen::Missing => "no such file",
        CannotOpen::Denied => "permission denied",
        CannotOpen::NotAFile => "not a regular file",
        CannotOpen::Exists => "the file is there already",
        CannotOpen::PbnText => "a PBN file, not a file of evidence",
        CannotOpen::Refused => "the system does not open it",
    }
}

/// What explains a refused PBN text.
pub fn text_explanation(refusal: PbnFault) -> &'static str
    ensures { result.now ≡ text_explanation refusal }
{
    match refusal {
        PbnFault::TagForm { .. } =>
            "a tag pair is a name and a quoted value in brackets, on one line",
        PbnFault::OpenComment { .. } => "the comment that begins in this line has no end",
        PbnFault::SecondDeal { .. } =>
            "a game has one Deal: an empty line must separate two boards",
        PbnFault::DealForm { .. } => {
            "this Deal is not four hands as in PBN: spades.hearts.diamonds.clubs, T for the ten"
        }
        PbnFault::CardTwice { .. } => "this Deal has a card twice",
        PbnFault::HandSize { .. } => "each hand of a board has thirteen cards",
        PbnFault::Inherited { .. } => {
            "a value that begins with # repeats that of an earlier game: write the value itself"
        }
        PbnFault::TooManyBoards { .. } => "at most 4096 boards are read at a time: divide the file",
        PbnFault::OutOfMemory => "",
    }
}

/// What explains that a file is of no use.
pub fn file_explanation(fault: FileFault) -> &'static str
    ensures { result.now ≡ file_explanation fault }
{
    match fault {
        FileFault::Open(_) => "",
        FileFault::Read => "the file cannot be read to its end; a folder cannot be read at all",
    }
}
