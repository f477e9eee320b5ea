//! Why the program can't do what was asked, whatever that is.

use cards::{DeviceFault, Sink, write_all};
use run_ends::{Fault, Status};
use streams::CannotOpen;

/// Why the program can't do what was asked, whatever that is.
#[derive(Clone, Copy, Debug, PartialEq, Eq)]
pub enum ProgramFault {
    /// Memory ran out.
    OutOfMemory,
    /// The output failed.
    Write,
    /// A word of the command line is not UTF-8.
    NotText,
}

impl Fault for ProgramFault {
    ghost use Rattle.std.specs.Prelude.{None, []};
    ghost use Rattle.command_line.specs.Faults.{said, status};

    ghost status_of = { status };

    ghost said_of = { said };

    ghost opening_of = { λ _. None };

    ghost explanation_of = { λ _. [] };

    fn status(self) -> Status {
        match self {
            ProgramFault::NotText => Status::Refused,
            _ => Status::Failed,
        }
    }

    fn write_said<E: Sink>(self, errors: &mut E) -> Result<(), DeviceFault> {
        match self {
            ProgramFault::OutOfMemory => write_all(errors, b"out of memory"),
            ProgramFault::Write => write_all(errors, b"writing failed"),
            ProgramFault::NotText => write_all(errors, b"a word of the command line is not UTF-8"),
        }
    }

    fn opening(self) -> Option<CannotOpen> {
        None
    }

    fn explanation(self) -> &'static str {
        ""
    }
}
