//! `check`: whether an answer is right.

mod options;
pub(crate) mod runs;

pub use options::{definition, options_of};
pub use runs::{check_answer, run};
