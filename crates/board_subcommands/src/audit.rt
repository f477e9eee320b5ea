//! `audit`: the tables that evidence shows for the boards of the input.

mod options;
mod runs;

pub use options::{AuditOptions, definition, options_of};
pub use runs::run;
