//! `plays`: the tricks after each card of the recorded plays of the input.

mod audit;
mod ends;
mod forms;
mod games;
mod kept;
mod notes;
mod options;
mod runs;

pub use forms::PlaysForm;
pub use options::{PlaysOptions, definition, options_of};
pub use runs::{PlaysRun, run};
