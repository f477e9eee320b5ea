//! What is printed of a fault.

ghost use Rattle.std.specs.Prelude.{◌≡◌};
ghost use Rattle.cards.specs.Devices.{Writes};
ghost use Rattle.board_subcommands.specs.Faults.{explanation, keep_explanation, opening, said, status};

use crate::faults::BoardFault;
use cards::{DeviceFault, Sink, write_all};
use evidence_solvers::KeepFault;
use run_ends::{FileFault, Status, file_explanation, text_explanation, write_text_refusal};
use streams::CannotOpen;

/// How a run ends with this fault.
pub(crate) fn status(fault: BoardFault) -> Status
    ensures { result ≡ status fault }
{
    match fault {
        BoardFault::Pbn(_) => Status::Refused,
        _ => Status::Failed,
    }
}

/// Writes what is said of the fault.
pub(crate) fn write_said<E: Sink>(fault: BoardFault, errors: &mut E) -> Result<(), DeviceFault>
    ensures { Writes (E.state errors.old) (E.state errors.new) (said fault) result }
{
    match fault {
        BoardFault::OutOfMemory => write_all(errors, b"out of memory"),
        BoardFault::Read => write_all(errors, b"reading failed"),
        BoardFault::NoThread => write_all(errors, b"a thread could not be started"),
        BoardFault::Write => write_all(errors, b"writing failed"),
        BoardFault::Pbn(refusal) => write_text_refusal(refusal, errors),
        BoardFault::Boards(FileFault::Open(_)) => write_all(errors, b"boards: cannot open"),
        BoardFault::Boards(FileFault::Read) => write_all(errors, b"boards: reading failed"),
        BoardFault::Evidence(FileFault::Open(_)) => write_all(errors, b"evidence: cannot open"),
        BoardFault::Evidence(FileFault::Read) => write_all(errors, b"evidence: reading failed"),
        BoardFault::Unkept(KeepFault::OutOfMemory) => write_all(errors, b"evidence: out of memory"),
        BoardFault::Unkept(KeepFault::TooLong) => {
            write_all(errors, b"evidence: a piece is too long")
        }
        BoardFault::Unkept(KeepFault::Write) => write_all(errors, b"evidence: writing failed"),
    }
}

/// Why a file can't be opened, if that is the fault.
pub(crate) fn opening(fault: BoardFault) -> Option<CannotOpen>
    ensures { result ≡ opening fault }
{
    match fault {
        BoardFault::Boards(FileFault::Open(why)) | BoardFault::Evidence(FileFault::Open(why)) => {
            Some(why)
        }
        _ => None,
    }
}

/// What explains a fault. The text is empty if nothing does.
pub(crate) fn explanation(fault: BoardFault) -> &'static str
    ensures { result.now ≡ explanation fault }
{
    match fault {
        BoardFault::OutOfMemory | BoardFault::Read | BoardFault::NoThread | BoardFault::Write => "",
        BoardFault::Pbn(refusal) => text_explanation(refusal),
        BoardFault::Boards(why) | BoardFault::Evidence(why) => file_explanation(why),
        BoardFault::Unkept(why) => keep_explanation(why),
    }
}

/// What explains that not all evidence was kept.
fn keep_explanation(fault: KeepFault) -> &'static str
    ensures { result.now ≡ keep_explanation fault }
{
    match fault {
        KeepFault::OutOfMemory =>
            "the numbers are written, but memory ran out for some of their evidence",
        KeepFault::TooLong =>
            "the numbers are written, but evidence of over 512 MiB in one piece is not kept",
        KeepFault::Write =>
            "the numbers are written, but some of their evidence is not in the file",
    }
}
