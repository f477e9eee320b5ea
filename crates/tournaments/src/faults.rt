//! Why no tables were made.

ghost use Rattle.std.specs.Prelude.{◌≡◌};
ghost use Rattle.tournaments.specs.declared.faults.MakeFault.TheVariants as faults;

use cards::{DeviceFault, OutOfMemory};
use pbn_deals::PbnFault;
use streams::InputFault;

/// Why no tables were made. Only with `Write` something was written.
#[derive(Clone, Copy, Debug, PartialEq, Eq)]
pub enum MakeFault {
    /// Memory ran out.
    OutOfMemory,
    /// The source failed.
    Read,
    /// The text of the boards is refused for this reason.
    Pbn(PbnFault),
    /// A thread could not be started.
    NoThread,
    /// The sink failed. It has got a beginning of the text.
    Write,
}

impl From<InputFault> for MakeFault {
    ghost use Rattle.tournaments.specs.Faults.{input_fault};

    ghost from_gives = { λ fault answer. answer ≡ input_fault fault };

    fn from(fault: InputFault) -> MakeFault {
        match fault {
            InputFault::OutOfMemory => MakeFault::OutOfMemory,
            InputFault::Read => MakeFault::Read,
        }
    }
}

impl From<OutOfMemory> for MakeFault {
    ghost from_gives = { λ _ answer. answer ≡ faults.OutOfMemory };

    fn from(_fault: OutOfMemory) -> MakeFault {
        MakeFault::OutOfMemory
    }
}

/// Makes the fault of a sink. (The fault of a source is an `InputFault`.)
pub(crate) fn write_failed(_fault: DeviceFault) -> MakeFault
    ensures { result ≡ faults.Write }
{
    MakeFault::Write
}
