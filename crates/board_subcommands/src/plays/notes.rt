//! What is said of a run that wrote plays.

ghost use Rattle.cards.specs.Devices.{Writes};
ghost use Rattle.board_subcommands.specs.Plays.Notes.{TellsCount, TellsMissing, TellsReport, note_text};

use crate::counted::write_counted;
use crate::notes::{NO_BOARD, tell_if};
use cards::{DeviceFault, Sink, write_all};
use play_pages::PlaysReport;

/// Writes notes of what is missing of the plays, and of what was passed over, or that there is no game. If the error
/// output fails, nobody is left to be told.
pub(crate) fn tell_report<E: Sink>(report: PlaysReport, is_audit: bool, errors: &mut E)
    ensures { TellsReport report is_audit (E.state errors.old) (E.state errors.new) }
{
    tell_if(report.games == 0, NO_BOARD, errors);
    tell_count(
        report.passed_over as u64,
        b"1 game has no play\n",
        b" games have no play\n",
        errors,
    );
    tell_count(
        report.lacking as u64,
        b"1 game lacks its deal, its contract or its declarer\n",
        b" games lack their deal, their contract or their declarer\n",
        errors,
    );
    tell_count(
        report.illegal as u64,
        b"1 play ends at a card that is not legal\n",
        b" plays end at a card that is not legal\n",
        errors,
    );
    tell_count(
        report.cut as u64,
        b"1 play ends at an irregularity, or at a word that is no card\n",
        b" plays end at an irregularity, or at a word that is no card\n",
        errors,
    );
    tell_missing(report.missing as u64, is_audit, errors);
}

/// Writes a note of numbers that aren't known, if there are any, with what helps.
fn tell_missing<E: Sink>(count: u64, is_audit: bool, errors: &mut E)
    ensures { TellsMissing is_audit count (E.state errors.old) (E.state errors.new) }
{
    if is_audit {
        tell_count(
            count,
            b"1 number is unknown: the evidence does not show it\n",
            b" numbers are unknown: the evidence does not show them\n",
            errors,
        );
    } else {
        tell_count(
            count,
            b"1 number is unknown\n  --budget gives a search more steps\n",
            b" numbers are unknown\n  --budget gives a search more steps\n",
            errors,
        );
    }
}

/// Writes a note of a number of things, if there are any.
fn tell_count<E: Sink>(count: u64, one: &[u8], others: &[u8], errors: &mut E)
    ensures { TellsCount count one.now others.now (E.state errors.old) (E.state errors.new) }
{
    if count > 0 {
        let _ = write_note(count, one, others, errors);
    }
}

/// Writes a note of a number of things.
fn write_note<E: Sink>(
    count: u64,
    one: &[u8],
    others: &[u8],
    errors: &mut E,
) -> Result<(), DeviceFault>
    ensures { Writes (E.state errors.old) (E.state errors.new) (note_text count one.now others.now) result }
{
    write_all(errors, b"ddfarm: note: ")?;
    write_counted(count, one, others, errors)
}
