//! Why threads end before their work is done.

ghost use Rattle.std.specs.Prelude.{◌≡◌};
ghost use Rattle.farm_threads.specs.declared.halts.Halt.TheVariants as halts;

use cards::OutOfMemory;
use std::alloc::{AllocError, AllocFailed};

/// Why threads end before their work is done.
#[derive(Clone, Copy)]
pub enum Halt {
    /// Memory ran out.
    OutOfMemory,
    /// A thread could not be started.
    NoThread,
}

impl From<OutOfMemory> for Halt {
    ghost from_gives = { λ _ answer. answer ≡ halts.OutOfMemory };

    fn from(_fault: OutOfMemory) -> Halt {
        Halt::OutOfMemory
    }
}

impl From<AllocError> for Halt {
    ghost from_gives = { λ _ answer. answer ≡ halts.OutOfMemory };

    fn from(_fault: AllocError) -> Halt {
        Halt::OutOfMemory
    }
}

impl<T: Drop> From<AllocFailed<T>> for Halt {
    ghost from_gives = { λ _ answer. answer ≡ halts.OutOfMemory };

    fn from(_fault: AllocFailed<T>) -> Halt {
        Halt::OutOfMemory
    }
}
