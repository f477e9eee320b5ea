//! What came of a run that was done.

ghost use Rattle.std.specs.Prelude.{◌≡◌};
ghost use Rattle.board_subcommands.specs.FinishedRuns.{quiet};

use crate::notes::Notes;
use evidence::Damage;
use evidence_solvers::KeepFault;
use run_ends::Status;
use streams::InputFault;

/// What came of a run that was done.
#[derive(Clone, Copy)]
pub(crate) struct FinishedRun {
    /// How it ends.
    pub(crate) status: Status,
    /// What was passed over of its evidence, as far as that was read.
    pub(crate) damage: Damage,
    /// What else is said of it.
    pub(crate) notes: Notes,
    /// Whether its evidence was read to the end.
    pub(crate) read: Result<(), InputFault>,
    /// Whether all evidence was kept that was to be kept.
    pub(crate) kept: Result<(), KeepFault>,
}

impl FinishedRun {
    /// Of a run of which nothing is said, that has passed nothing over and had nothing to keep.
    pub(crate) fn quiet(status: Status) -> FinishedRun
        ensures { result ≡ quiet status }
    {
        FinishedRun {
            status,
            damage: Damage { count: 0, first: 0 },
            notes: Notes::none(),
            read: Ok(()),
            kept: Ok(()),
        }
    }
}
