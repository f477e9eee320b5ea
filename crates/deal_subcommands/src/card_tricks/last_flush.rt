//! The last bytes of the tricks, before it is said that not all evidence is in its file.

ghost use Rattle.std.specs.Prelude.{◌≡◌};
ghost use Rattle.deal_subcommands.specs.CardTricks.LastFlush.{HandsOnFirst, lacks_evidence};

use crate::faults::DealFault;
use run_ends::{Output, Status};

/// Whether not all evidence is in its file.
fn lacks_evidence(answer: Result<Status, DealFault>) -> bool
    ensures { result ≡ lacks_evidence answer }
{
    match answer {
        Err(DealFault::Unkept) => true,
        _ => false,
    }
}

/// What came of a run, after its output has handed on all if not all evidence is in its file: if the output can't, that
/// is the fault.
pub(crate) fn with_last_flush<O: Output>(
    answer: Result<Status, DealFault>,
    output: &mut O,
) -> Result<Status, DealFault>
    ensures { HandsOnFirst answer (O.state output.old) (O.state output.new) (O.handed_on output.new) result }
{
    if !lacks_evidence(answer) {
        return answer;
    }
    match output.hand_on() {
        Ok(()) => answer,
        Err(_) => Err(DealFault::Write),
    }
}
