//! Laws of evidence, its sections and their texts. Nothing that runs rests on this crate.
#![tactic(auto)]

mod added;
mod answers;
mod card_sections;
mod sections;

pub use added::added_sections_are_parts;
pub use answers::{answers_are_read_back, text_is_one_answer};
pub use card_sections::{card_sections_are_read_back, one_card_section, one_card_text};
pub use sections::{
    one_row, one_section, one_text, parts_are_joined, sections_are_parts, sections_are_read_back,
};
