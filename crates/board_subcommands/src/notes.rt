//! What is said of a run that was done and is no fault.

ghost use Rattle.std.specs.Prelude.{◌≡◌};
ghost use Rattle.cards.specs.Devices.{Writes};
ghost use Rattle.board_subcommands.specs.Notes.{TellsIf, TellsLacking, TellsNotes, TellsUndealt, advice_line};
ghost use Rattle.board_subcommands.specs.Notes.{counted_rows, counted_tables, counts_text, lead_advice, text_if};
ghost use Rattle.board_subcommands.specs.Notes.{missing_text, searched_text, undealt_text, unshown_text, quiet_notes};

use crate::counted::write_counted;
use cards::{DeviceFault, Sink, write_all, write_number};

/// How many searches of results ended without an answer, and how many answers were refused.
#[derive(Clone, Copy)]
pub(crate) struct Searches {
    /// How many ran out of steps.
    pub(crate) steps: u64,
    /// How many ran out of memory, or were lost when a thread after them did.
    pub(crate) memory: u64,
    /// How many answers the checker refused.
    pub(crate) refused: u64,
}

/// How many tables of boards with a deal are incomplete, or rows of leads are missing, and why.
#[derive(Clone, Copy)]
pub(crate) enum Lacking {
    /// None.
    Nothing,
    /// So many: results of theirs were searched in vain.
    Searched(u64, Searches),
    /// So many: evidence doesn't show all results of theirs.
    Unshown(u64),
    /// So many rows of leads: they were searched in vain.
    Rows(u64, Searches),
}

/// What is said of a run that was done and is no fault.
#[derive(Clone, Copy)]
pub(crate) struct Notes {
    /// Whether no board was found.
    pub(crate) lacks_boards: bool,
    /// How many boards have no deal.
    pub(crate) undealt: u64,
    /// Whether the file of evidence can only be read.
    pub(crate) read_only: bool,
    /// Which tables are incomplete, or which rows are missing.
    pub(crate) lacking: Lacking,
}

/// The note that no board was found.
pub(crate) const NO_BOARD: &str = "ddfarm: note: no board was found
  the input has to be plain text in PBN, not UTF-16, and its lines have to end by LF or CR LF
";

/// The note that a file of evidence can only be read.
const READ_ONLY: &str =
    "ddfarm: note: evidence: the file can only be read, so nothing is added to it\n";

impl Notes {
    /// Nothing is said.
    pub(crate) fn none() -> Notes
        ensures { result ≡ quiet_notes }
    {
        Notes {
            lacks_boards: false,
            undealt: 0,
            read_only: false,
            lacking: Lacking::Nothing,
        }
    }
}

/// Writes the notes on the error output. If it fails, nobody is left to be told.
pub(crate) fn tell_notes<E: Sink>(notes: Notes, errors: &mut E)
    ensures { TellsNotes notes (E.state errors.old) (E.state errors.new) }
{
    tell_if(notes.lacks_boards, NO_BOARD, errors);
    tell_undealt(notes.undealt, errors);
    tell_if(notes.read_only, READ_ONLY, errors);
    tell_lacking(notes.lacking, errors);
}

/// Writes a text if it holds.
pub(crate) fn tell_if<E: Sink>(holds: bool, text: &str, errors: &mut E)
    ensures { TellsIf holds text.now (E.state errors.old) (E.state errors.new) }
{
    if holds {
        let _ = write_all(errors, text.as_bytes());
    }
}

/// Writes how many boards have no deal, if there are any.
fn tell_undealt<E: Sink>(count: u64, errors: &mut E)
    ensures { TellsUndealt count (E.state errors.old) (E.state errors.new) }
{
    if count > 0 {
        let _ = write_undealt(count, errors);
    }
}

/// Writes that so many boards have no deal.
fn write_undealt<E: Sink>(count: u64, errors: &mut E) -> Result<(), DeviceFault>
    ensures { Writes (E.state errors.old) (E.state errors.new) (undealt_text count) result }
{
    write_all(errors, b"ddfarm: note: ")?;
    write_counted(count, b"1 board has", b" boards have", errors)?;
    write_all(errors, b" no deal, so there is no table\n")
}

/// Writes which tables are incomplete, if any are, or which rows are missing.
fn tell_lacking<E: Sink>(lacking: Lacking, errors: &mut E)
    ensures { TellsLacking lacking (E.state errors.old) (E.state errors.new) }
{
    match lacking {
        Lacking::Nothing => {}
        Lacking::Searched(tables, searches) => {
            let _ = write_searched(tables, searches, errors);
        }
        Lacking::Unshown(tables) => {
            let _ = write_unshown(tables, errors);
        }
        Lacking::Rows(rows, searches) => {
            let _ = write_missing(rows, searches, errors);
        }
    }
}

/// Writes how many tables are incomplete after searches.
fn write_searched<E: Sink>(
    tables: u64,
    searches: Searches,
    errors: &mut E,
) -> Result<(), DeviceFault>
    ensures { Writes (E.state errors.old) (E.state errors.new) (searched_text tables searches) result }
{
    write_table_count(tables, errors)?;
    write_counts(searches, errors)?;
    write_advice(searches, errors)
}

/// Writes how searches ended.
fn write_counts<E: Sink>(searches: Searches, errors: &mut E) -> Result<(), DeviceFault>
    ensures { Writes (E.state errors.old) (E.state errors.new) (counts_text searches) result }
{
    write_counted(
        searches.steps,
        b"1 search ran out of steps, ",
        b" searches ran out of steps, ",
        errors,
    )?;
    write_number(errors, searches.memory)?;
    write_all(errors, b" out of memory, ")?;
    write_counted(
        searches.refused,
        b"1 answer was refused",
        b" answers were refused",
        errors,
    )?;
    write_all(errors, b"\n")
}

/// Writes how often each search was made, and what helps those that found nothing.
fn write_advice<E: Sink>(searches: Searches, errors: &mut E) -> Result<(), DeviceFault>
    ensures { Writes (E.state errors.old) (E.state errors.new) (advice_line searches) result }
{
    write_all(
        errors,
        b"  each missing result was tried as often as --tries says",
    )?;
    write_if(
        searches.steps > 0,
        b"; --budget gives a search more steps",
        errors,
    )?;
    write_if(
        searches.memory > 0,
        b"; use fewer --solvers or give more memory",
        errors,
    )?;
    write_all(errors, b"\n")
}

/// Writes a text if it holds.
fn write_if<E: Sink>(holds: bool, text: &[u8], errors: &mut E) -> Result<(), DeviceFault>
    ensures { Writes (E.state errors.old) (E.state errors.new) (text_if holds text.now) result }
{
    if holds {
        write_all(errors, text)
    } else {
        Ok(())
    }
}

/// Writes how many tables lack results that evidence doesn't show.
fn write_unshown<E: Sink>(tables: u64, errors: &mut E) -> Result<(), DeviceFault>
    ensures { Writes (E.state errors.old) (E.state errors.new) (unshown_text tables) result }
{
    write_table_count(tables, errors)?;
    write_all(
        errors,
        b"the evidence does not show all results\n  table --evidence searches the rest and adds it to the file\n",
    )
}

/// Writes how many tables are incomplete, as the beginning of a note.
fn write_table_count<E: Sink>(tables: u64, errors: &mut E) -> Result<(), DeviceFault>
    ensures { Writes (E.state errors.old) (E.state errors.new) (counted_tables tables) result }
{
    write_all(errors, b"ddfarm: note: ")?;
    write_counted(
        tables,
        b"1 table is incomplete: ",
        b" tables are incomplete: ",
        errors,
    )
}

/// Writes how many rows of leads are missing after searches.
fn write_missing<E: Sink>(rows: u64, searches: Searches, errors: &mut E) -> Result<(), DeviceFault>
    ensures { Writes (E.state errors.old) (E.state errors.new) (missing_text rows searches) result }
{
    write_row_count(rows, errors)?;
    write_counts(searches, errors)?;
    write_lead_advice(searches, errors)
}

/// Writes how many rows are missing, as the beginning of a note.
fn write_row_count<E: Sink>(rows: u64, errors: &mut E) -> Result<(), DeviceFault>
    ensures { Writes (E.state errors.old) (E.state errors.new) (counted_rows rows) result }
{
    write_all(errors, b"ddfarm: note: ")?;
    write_counted(rows, b"1 row is missing: ", b" rows are missing: ", errors)
}

/// Writes what helps searches for leads that found nothing.
fn write_lead_advice<E: Sink>(searches: Searches, errors: &mut E) -> Result<(), DeviceFault>
    ensures { Writes (E.state errors.old) (E.state errors.new) (lead_advice searches) result }
{
    write_if(
        searches.steps > 0,
        b"  --budget gives a search more steps\n",
        errors,
    )?;
    write_if(
        searches.memory > 0,
        b"  use fewer --solvers or give more memory\n",
        errors,
    )
}
