//! `line`: the line of play in which both sides follow the certificates of an answer.

mod options;
pub(crate) mod runs;

pub use options::{definition, options_of};
pub use runs::{follow_answer, run};
