//! Why a farm has no book.

ghost use Rattle.std.specs.Prelude.{◌≡◌};
ghost use Rattle.farm.specs.declared.faults.FarmFault.TheVariants as faults;

use farm_threads::Halt;
use lease_book::BookFault;
use std::alloc::AllocError;

/// Why a farm has no book.
#[derive(Clone, Copy, Debug, PartialEq, Eq)]
pub enum FarmFault {
    /// Memory ran out.
    OutOfMemory,
    /// A thread could not be started.
    NoThread,
    /// There can be no book over the boards, for this reason.
    Book(BookFault),
}

impl From<AllocError> for FarmFault {
    ghost from_gives = { λ _ answer. answer ≡ faults.OutOfMemory };

    fn from(_fault: AllocError) -> FarmFault {
        FarmFault::OutOfMemory
    }
}

impl From<Halt> for FarmFault {
    ghost use Rattle.farm.specs.Faults.{halt_fault};

    ghost from_gives = { λ halt answer. answer ≡ halt_fault halt };

    fn from(halt: Halt) -> FarmFault {
        match halt {
            Halt::OutOfMemory => FarmFault::OutOfMemory,
            Halt::NoThread => FarmFault::NoThread,
        }
    }
}
