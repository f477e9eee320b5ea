//! How a run for recorded plays ends.

ghost use Rattle.std.specs.Prelude.{◌≡◌};
ghost use Rattle.board_subcommands.specs.Plays.Ends.{EndsKept, EndsPlays, EndsWritten, is_whole, plays_status};

use crate::damage_lines::tell_damage;
use crate::ends::{FileNames, file_named};
use crate::faults::BoardFault;
use crate::plays::notes::tell_report;
use cards::{DeviceFault, Sink};
use evidence::Damage;
use play_pages::PlaysReport;
use run_ends::{Output, Status, tell};

/// What came of a run that wrote plays.
#[derive(Clone, Copy)]
pub(crate) struct PlaysOutcome {
    /// What was written, and what was not.
    pub(crate) report: PlaysReport,
    /// What was passed over of evidence.
    pub(crate) damage: Damage,
    /// Whether all evidence was kept that was to be kept.
    pub(crate) kept: Result<(), BoardFault>,
}

/// Whether each number is known, each card is legal, and no game lacks anything.
fn is_whole(report: PlaysReport) -> bool
    ensures { result ≡ is_whole report }
{
    report.missing == 0 && report.illegal == 0 && report.lacking == 0
}

/// How a run ends that wrote plays.
fn plays_status(report: PlaysReport) -> Status
    ensures { result ≡ plays_status report }
{
    if is_whole(report) {
        Status::Done
    } else {
        Status::Incomplete
    }
}

/// Writes why evidence was not kept, if it wasn't, and answers how the run ends that has reached this status.
fn end_kept<E: Sink>(
    names: FileNames<'_>,
    kept: Result<(), BoardFault>,
    reached: Status,
    errors: &mut E,
) -> Status
    ensures { EndsKept names.entry kept reached (E.state errors.old) (E.state errors.new) result }
{
    match kept {
        Ok(()) => reached,
        Err(fault) => {
            let _ = tell(fault, file_named(names, fault), errors);
            Status::Failed
        }
    }
}

/// Writes what there is to say of plays that were written, and answers how the run ends.
fn end_written<E: Sink>(
    names: FileNames<'_>,
    outcome: PlaysOutcome,
    is_audit: bool,
    errors: &mut E,
) -> Status
    ensures { EndsWritten names.entry outcome is_audit (E.state errors.old) (E.state errors.new) result }
{
    tell_damage(outcome.damage, errors);
    tell_report(outcome.report, is_audit, errors);
    end_kept(names, outcome.kept, plays_status(outcome.report), errors)
}

/// Writes what there is to say of a run, or why it wrote no plays, and answers how it ends. The output of a run that
/// wrote plays hands on all first: if it can't, nothing else is said.
pub(crate) fn end_plays<O: Output, E: Sink>(
    answer: Result<PlaysOutcome, BoardFault>,
    names: FileNames<'_>,
    is_audit: bool,
    output: &mut O,
    errors: &mut E,
) -> Status
    ensures { EndsPlays names.entry answer is_audit (O.state output.old) (O.state output.new)
        (O.handed_on output.new) (E.state errors.old) (E.state errors.new) result }
{
    match answer {
        Ok(outcome) => match output.hand_on() {
            Ok(()) => end_written(names, outcome, is_audit, errors),
            Err(DeviceFault) => tell(
                BoardFault::Write,
                file_named(names, BoardFault::Write),
                errors,
            ),
        },
        Err(fault) => tell(fault, file_named(names, fault), errors),
    }
}
