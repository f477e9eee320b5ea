//! Why a run for boards fails or is refused.

ghost use Rattle.std.specs.Prelude.{◌≡◌};

use crate::fault_words;
use audits::AuditFault;
use cards::{DeviceFault, Sink};
use evidence_solvers::KeepFault;
use opening_leads::LeadFault;
use pbn_deals::PbnFault;
use run_ends::{Fault, FileFault, Status};
use streams::CannotOpen;
use tournaments::MakeFault;

/// Why a run for boards fails or is refused.
#[derive(Clone, Copy, Debug, PartialEq, Eq)]
pub enum BoardFault {
    /// Memory ran out.
    OutOfMemory,
    /// The input failed.
    Read,
    /// A thread could not be started.
    NoThread,
    /// The output failed.
    Write,
    /// The PBN text is refused.
    Pbn(PbnFault),
    /// The file with the boards is of no use.
    Boards(FileFault),
    /// The file of evidence is of no use.
    Evidence(FileFault),
    /// Not all evidence was kept that was to be kept, or memory ran out while it was read.
    Unkept(KeepFault),
}

impl From<MakeFault> for BoardFault {
    ghost use Rattle.board_subcommands.specs.Faults.{make_fault};

    ghost from_gives = { λ fault answer. answer ≡ make_fault fault };

    fn from(fault: MakeFault) -> BoardFault {
        match fault {
            MakeFault::OutOfMemory => BoardFault::OutOfMemory,
            MakeFault::Read => BoardFault::Read,
            MakeFault::Pbn(refusal) => BoardFault::Pbn(refusal),
            MakeFault::NoThread => BoardFault::NoThread,
            MakeFault::Write => BoardFault::Write,
        }
    }
}

impl From<AuditFault> for BoardFault {
    ghost use Rattle.board_subcommands.specs.Faults.{audit_fault};

    ghost from_gives = { λ fault answer. answer ≡ audit_fault fault };

    fn from(fault: AuditFault) -> BoardFault {
        match fault {
            AuditFault::Page(made) => BoardFault::from(made),
            AuditFault::Evidence => BoardFault::Evidence(FileFault::Read),
        }
    }
}

impl From<LeadFault> for BoardFault {
    ghost use Rattle.board_subcommands.specs.Faults.{lead_fault};

    ghost from_gives = { λ fault answer. answer ≡ lead_fault fault };

    fn from(fault: LeadFault) -> BoardFault {
        match fault {
            LeadFault::OutOfMemory => BoardFault::OutOfMemory,
            LeadFault::Read => BoardFault::Read,
            LeadFault::Pbn(refusal) => BoardFault::Pbn(refusal),
            LeadFault::Write => BoardFault::Write,
        }
    }
}

impl Fault for BoardFault {
    ghost use Rattle.board_subcommands.specs.Faults.{explanation, opening, said, status};

    ghost status_of = { status };

    ghost said_of = { said };

    ghost opening_of = { opening };

    ghost explanation_of = { explanation };

    fn status(self) -> Status {
        fault_words::status(self)
    }

    fn write_said<E: Sink>(self, errors: &mut E) -> Result<(), DeviceFault> {
        fault_words::write_said(self, errors)
    }

    fn opening(self) -> Option<CannotOpen> {
        fault_words::opening(self)
    }

    fn explanation(self) -> &'static str {
        fault_words::explanation(self)
    }
}
