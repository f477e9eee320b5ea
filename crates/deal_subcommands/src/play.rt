//! `play`: a play of the cards against a certificate of an answer.

mod options;
pub(crate) mod runs;
mod sides;

pub use options::{PlayOptions, definition, options_of};
pub use runs::{play_answer, run};
pub use sides::ContractSide;
