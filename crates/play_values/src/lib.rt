//! What a recorded play is worth: after each of its cards the tricks that declarer's side takes if both sides play
//! best.
//!
//! The definitions and laws are here, the recording of a play, and the rest that whole tricks leave. No card can better
//! the number of its own side, so what a card loses is a natural number. `certified_plays` finds the values.
#![tactic(auto)]

mod laws;
mod left_layouts;
mod recordings;
mod rests;

pub use laws::{a_card_cannot_gain, first_value_is_value, play_value_is_unique};
pub use recordings::RecordedPlay;
pub use rests::Rest;
