//! Boards of a file that is named, in place of the input.

ghost use Rattle.std.specs.Prelude.{◌≡◌};
ghost use Rattle.board_subcommands.specs.NamedBoards.{of_boards};

use crate::faults::BoardFault;
use crate::finished_runs::FinishedRun;
use run_ends::FileFault;

/// What came of a run with a file of boards as its input: if the input has failed, the file has.
pub(crate) fn of_boards(answer: Result<FinishedRun, BoardFault>) -> Result<FinishedRun, BoardFault>
    ensures { result ≡ of_boards answer }
{
    match answer {
        Ok(outcome) => Ok(outcome),
        Err(BoardFault::Read) => Err(BoardFault::Boards(FileFault::Read)),
        Err(fault) => Err(fault),
    }
}
