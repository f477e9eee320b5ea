//! `solve`: an answer for a layout.

mod options;
mod runs;

pub use options::{SolveOptions, definition, options_of};
pub use runs::{run, solve_layout};
