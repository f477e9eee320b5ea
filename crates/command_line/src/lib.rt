//! The command line of the program: what its words ask for, what is done for them, and how the run ends.
//!
//! [`run_command`] works over any input, output and error output, so that tests can run it over memory.
#![tactic(auto)]

mod commands;
mod faults;
mod outputs;
mod run_commands;
mod subcommands;
mod words;

pub use faults::ProgramFault;
pub use outputs::{close_output, room_for, show};
pub use run_commands::{run_command, run_program};
pub use subcommands::{Subcommand, run_subcommand};
pub use words::parse_arguments;
