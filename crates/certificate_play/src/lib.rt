//! A strategy read out of a certificate as code.
//!
//! A certificate says of patterns how a side wins its tricks; here it plays. [`Playing`] follows it through the play of
//! a layout: at the side's turns it names a card, and it takes whatever card the opponents may play. The cards are a
//! legal history by `play_rules`, and when all are played the side has the tricks that its certificate showed.
//! [`line`] is a play in which each side has what its certificate showed.
#![tactic(auto)]

mod branches;
mod copies;
mod lines;
mod playing;
mod sides;
mod stand_ins;
mod steps;
mod trick_ends;

pub use lines::line;
pub use playing::Playing;
pub use sides::{Sides, begin_both};
