//! `plain`: the tricks of North and South in a layout of few cards.

mod options;
mod runs;

pub use options::{definition, options_of};
pub use runs::{plain_line, run};
