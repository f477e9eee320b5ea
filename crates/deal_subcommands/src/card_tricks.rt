//! `cards`: the tricks that each card leads to which may be played.

mod audit;
mod kept;
mod last_flush;
mod options;
mod played;
mod refusals;
mod runs;
mod valuing;

pub use audit::{EvidenceRefusal, audit_cards};
pub use kept::{KeptCards, find_kept};
pub use options::{CardsOptions, PlayedWords, definition, options_of};
pub use played::WordPlace;
pub use runs::{CardsRun, run};
pub use valuing::{find_cards, value_cards};
