//! Evidence of the tricks that each card leads to, as data and as text.
//!
//! A [`CardSection`] has a trick in progress, claims for the cards that may come next, and the graphs of both sides.
//! Each has one text: [`write_card_section`] writes it and [`read_card_section`] reads it back. Every other text is of
//! no section. Whether the claims are true is not asked here: [`card_values::judge_cards`] judges them.
#![tactic(auto)]

mod card_reading;
mod claim_reading;
mod lines;
mod numbers;
mod section_reading;
mod section_writing;
mod sections;
mod trick_reading;

pub use card_reading::read_card;
pub use lines::read_line;
pub use section_reading::read_card_section;
pub use section_writing::{write_card_section, write_leader};
pub use sections::CardSection;
pub use trick_reading::{read_leader, read_trump};
