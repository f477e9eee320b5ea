//! A play of the cards as a text, and a play by certificate as a dialogue.
//!
//! [`write_play`] writes the cards of a history, one trick per line: who led it, its cards and who won it. At the end
//! it writes the tricks of both sides. It takes no memory.
//!
//! [`play_dialogue`] plays one side by its certificate; the lines that are typed play the other two hands. It shows the
//! four hands, the trick and whose turn it is, reads one card per line, and plays the side's replies, until all cards
//! are played or the input ends. Each text is written by one call, before the next line is read.
#![tactic(auto)]

mod card_words;
mod cards_named;
mod dialogues;
mod lines;
mod plays;
mod scores;
mod showing;
mod telling;
mod texts;
mod trails;
mod tricks;
mod words;

pub use card_words::read_card;
pub use dialogues::{End, Ended, play_dialogue};
pub use plays::write_play;
