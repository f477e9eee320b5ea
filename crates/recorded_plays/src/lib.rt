//! The recorded play of each game of a PBN text: its deal, its declarer and its denomination, and the cards of its Play
//! section (PBN 2.1) in the order in which they were played, as far as each of them is legal.
#![tactic(auto)]

mod follow;
mod game_texts;
mod laws;
mod letters;
mod plays;
mod readers;
mod slots;
mod tags;
mod words;

pub use laws::{one_reading, written_is_read};
pub use plays::{IllegalCard, IllegalReason, Lack, PlayEnd, RecordedGame, RecordedPlay};
pub use readers::read_plays;
