//! Evidence of what a recorded play is worth after each of its cards, as data and as text.
//!
//! A [`PlaySection`] has a play, claims for each number of its first cards, and the nodes of both sides. Each has one
//! text: [`write_play_section`] writes it and [`read_play_section`] reads it back. Every other text is of no section.
//! [`read_sections`] reads a whole text, piece by piece, whatever its bytes are, and [`FromEvidence`] answers for plays
//! by sections, in place of a search. Whether the claims are true is not asked here: `certified_plays` judges them.
#![tactic(auto)]

mod answers;
mod claim_finding;
mod finding;
mod node_copies;
mod node_finding;
mod number_finding;
mod play_finding;
mod section_reading;
mod section_writing;
mod sections;
mod wholes;

pub use answers::FromEvidence;
pub use section_reading::read_play_section;
pub use section_writing::{play_section_bytes, write_play_section};
pub use sections::{PlayContents, PlaySection};
pub use wholes::{WholeEvidence, read_sections};
