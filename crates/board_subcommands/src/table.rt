//! `table`: the tables of the boards of the input.

mod beside;
mod kept;
mod kept_files;
mod making;
mod options;
mod pages;
mod runs;

pub use kept_files::KeptFiles;
pub use making::make_tables;
pub(crate) use options::PROGRESS;
pub use options::{TableOptions, definition, options_of};
pub(crate) use pages::Unwatched;
pub use runs::{TableRun, run};
