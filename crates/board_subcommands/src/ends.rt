//! How a run for boards ends, and what is printed of it.

ghost use Rattle.std.specs.Prelude.{◌≡◌, None, option_map};
ghost use Rattle.run_ends.specs.Telling.{IsTold};
ghost use Rattle.run_ends.specs.declared.statuses.Status.TheVariants.{Failed};
ghost use Rattle.board_subcommands.specs.Ends.{Ends, EndsDone, EndsRead, file_named, told};
ghost use Rattle.board_subcommands.specs.FinishedRuns.{shelf_fault};

use crate::damage_lines::tell_damage;
use crate::faults::BoardFault;
use crate::finished_runs::FinishedRun;
use crate::notes::tell_notes;
use cards::{DeviceFault, Sink};
use evidence_solvers::KeepFault;
use run_ends::{FileFault, Output, Status, tell};
use streams::InputFault;

/// The names of the files that a run was given.
#[derive(Clone, Copy)]
pub(crate) struct FileNames<'a> {
    /// The file with the boards, if it isn't the input.
    pub(crate) boards: Option<&'a str>,
    /// The file with the evidence, if there is one.
    pub(crate) evidence: Option<&'a str>,
}

/// The name of the file that a fault speaks of, if it speaks of one.
pub(crate) fn file_named(names: FileNames<'_>, fault: BoardFault) -> Option<&str>
    ensures { option_map (λ name. name.now) result ≡ file_named names.entry fault }
{
    match fault {
        BoardFault::Boards(_) => names.boards,
        _ => names.evidence,
    }
}

/// Writes what there is to say of a run, and answers how it ends. The output of a run that was done hands on all first:
/// if it can't, nothing else is said.
pub(crate) fn end<O: Output, E: Sink>(
    answer: Result<FinishedRun, BoardFault>,
    names: FileNames<'_>,
    output: &mut O,
    errors: &mut E,
) -> Status
    ensures { Ends names.entry answer (O.state output.old) (O.state output.new) (O.handed_on output.new)
        (E.state errors.old) (E.state errors.new) result }
{
    match answer {
        Ok(outcome) => match output.hand_on() {
            Ok(()) => end_done(outcome, errors),
            Err(DeviceFault) => tell(
                BoardFault::Write,
                file_named(names, BoardFault::Write),
                errors,
            ),
        },
        Err(fault) => tell(fault, file_named(names, fault), errors),
    }
}

/// Writes what there is to say of a run that was done, and answers how it ends.
fn end_done<E: Sink>(outcome: FinishedRun, errors: &mut E) -> Status
    ensures { EndsDone outcome (E.state errors.old) (E.state errors.new) result }
{
    tell_damage(outcome.damage, errors);
    tell_notes(outcome.notes, errors);
    end_read(outcome, errors)
}

/// Tells what hindered that all evidence was read or kept, the reading before the keeping, and answers how the run
/// ends.
fn end_read<E: Sink>(outcome: FinishedRun, errors: &mut E) -> Status
    ensures { EndsRead outcome.read outcome.kept outcome.status (E.state errors.old) (E.state errors.new) result }
{
    match outcome.read {
        Ok(()) => match outcome.kept {
            Ok(()) => outcome.status,
            Err(fault) => tell(BoardFault::Unkept(fault), None, errors),
        },
        Err(fault) => tell_unread(fault, errors),
    }
}

/// Tells why evidence was not read to its end, and answers that the run has failed.
fn tell_unread<E: Sink>(fault: InputFault, errors: &mut E) -> Status
    ensures status { result ≡ Failed }
    ensures line { IsTold (E.state errors.old) (E.state errors.new) (told None (shelf_fault fault)) }
{
    match fault {
        InputFault::OutOfMemory => tell(BoardFault::Unkept(KeepFault::OutOfMemory), None, errors),
        InputFault::Read => tell(BoardFault::Evidence(FileFault::Read), None, errors),
    }
}
