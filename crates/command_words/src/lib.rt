//! Words and options of a command line: how they are defined for `clap`, and what it has read of them.
//!
//! A [`Definition`] describes a subcommand by a row for each of its words and options.
#![tactic(auto)]

mod commands;
mod definitions;
mod kinds;
mod proofs;
mod reading;
pub mod rows;

pub use commands::{Letters, known_letters, with_subcommands};
pub use definitions::{Argument, Definition, Word};
pub use kinds::{ChoiceOption, FlagOption, NumberOption, TextOption};
pub use proofs::{AUDIT, EVIDENCE, Proof, conflict, proof_of};
pub use reading::{
    LayoutWords, boards_of, deal_of, flag_of, is_said, number_of, threads_of, word_of,
};
