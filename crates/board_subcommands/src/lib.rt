//! The subcommands for boards: what their words mean, what each does, and how its run ends.
//!
//! Each has a folder: `options` has its words and options, `run` what it does.
#![tactic(auto)]

pub mod audit;
mod counted;
mod damage_lines;
mod ends;
mod fault_words;
mod faults;
mod finished_runs;
pub mod leads;
mod named_boards;
mod notes;
mod page_options;
pub mod plays;
mod reports;
pub mod table;

pub use faults::BoardFault;
pub use page_options::conflict;
