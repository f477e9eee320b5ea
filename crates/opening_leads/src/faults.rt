//! Why no leads were written.

ghost use Rattle.std.specs.Prelude.{◌≡◌};
ghost use Rattle.opening_leads.specs.declared.faults.LeadFault.TheVariants as faults;

use cards::DeviceFault;
use pbn_deals::PbnFault;
use std::alloc::AllocError;
use streams::InputFault;
use thiserror::Error;

/// Why no leads were written. Only with `Write` something was written.
#[derive(Clone, Copy, Debug, PartialEq, Eq, Error)]
pub enum LeadFault {
    /// Memory ran out.
    #[error("out of memory")]
    OutOfMemory,
    /// The source failed.
    #[error("reading failed")]
    Read,
    /// The text of the boards is refused for this reason.
    #[error("{0}")]
    Pbn(PbnFault),
    /// The sink failed. It has got a beginning of the text.
    #[error("writing failed")]
    Write,
}

impl From<AllocError> for LeadFault {
    ghost from_gives = { λ _ answer. answer ≡ faults.OutOfMemory };

    fn from(_fault: AllocError) -> LeadFault {
        LeadFault::OutOfMemory
    }
}

impl From<InputFault> for LeadFault {
    ghost use Rattle.opening_leads.specs.Making.{input_fault};

    ghost from_gives = { λ fault answer. answer ≡ input_fault fault };

    fn from(fault: InputFault) -> LeadFault {
        match fault {
            InputFault::OutOfMemory => LeadFault::OutOfMemory,
            InputFault::Read => LeadFault::Read,
        }
    }
}

impl From<DeviceFault> for LeadFault {
    ghost from_gives = { λ _ answer. answer ≡ faults.Write };

    fn from(_fault: DeviceFault) -> LeadFault {
        LeadFault::Write
    }
}
