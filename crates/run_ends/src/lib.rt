//! How a run ends, and what is printed if it can't do what was asked.
//!
//! A fault is printed on the error output ([`tell`]): a line says what it is, and a second one explains it. The status
//! of the run says how it ends.
#![tactic(auto)]

mod explanations;
mod named_files;
mod new_files;
mod outputs;
mod refusals;
mod statuses;
mod telling;

pub use explanations::{file_explanation, text_explanation};
pub use named_files::{FileFault, NamedFiles};
pub use new_files::NewFiles;
pub use outputs::Output;
pub use refusals::{write_refusal, write_text_refusal};
pub use statuses::Status;
pub use telling::{Fault, end, tell};
