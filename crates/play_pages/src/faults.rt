//! Why no page was written.

ghost use Rattle.std.specs.Prelude.{◌≡◌};
ghost use Rattle.play_pages.specs.declared.faults.PlaysFault.TheVariants as faults;

use cards::DeviceFault;
use std::alloc::AllocError;
use streams::InputFault;
use thiserror::Error;

/// Why no page was written. Only with `Write` something was written.
#[derive(Clone, Copy, Debug, PartialEq, Eq, Error)]
pub enum PlaysFault {
    /// Memory ran out.
    #[error("out of memory")]
    OutOfMemory,
    /// The source failed.
    #[error("reading failed")]
    Read,
    /// The sink failed. It has got a beginning of the page.
    #[error("writing failed")]
    Write,
}

impl From<AllocError> for PlaysFault {
    ghost from_gives = { λ _ answer. answer ≡ faults.OutOfMemory };

    fn from(_fault: AllocError) -> PlaysFault {
        PlaysFault::OutOfMemory
    }
}

impl From<InputFault> for PlaysFault {
    ghost use Rattle.play_pages.specs.Making.{input_fault};

    ghost from_gives = { λ fault answer. answer ≡ input_fault fault };

    fn from(fault: InputFault) -> PlaysFault {
        match fault {
            InputFault::OutOfMemory => PlaysFault::OutOfMemory,
            InputFault::Read => PlaysFault::Read,
        }
    }
}

impl From<DeviceFault> for PlaysFault {
    ghost from_gives = { λ _ answer. answer ≡ faults.Write };

    fn from(_fault: DeviceFault) -> PlaysFault {
        PlaysFault::Write
    }
}
