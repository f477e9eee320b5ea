//! The subcommands for one layout: what their words mean, what each does, and how its run ends.
//!
//! Each has a folder: `options` has its words and options, `run` what it does. Nothing here starts a thread or knows of
//! a book.
#![tactic(auto)]

mod answers;
pub mod card_tricks;
pub mod check;
mod fault_words;
mod faults;
mod judging;
pub mod line;
pub mod plain;
pub mod play;
pub mod solve;
mod verdict_lines;

pub use answers::read_answer;
pub use faults::DealFault;
