//! `leads`: the tricks that each opening lead of the boards of the input leads to.

mod options;
mod runs;

pub use options::{LeadsOptions, definition, options_of};
pub use runs::run;
