//! The text of a play.

ghost use Rattle.std.specs.Prelude.{◌≡◌, ◌*◌, ◌<◌, length, take, drop};
ghost use Rattle.cards.specs.Devices.{Writes};
ghost use Rattle.play_dialogues.specs.PlayText.{play_text, tricks_text};

use crate::scores::write_score;
use crate::tricks::{leads_next, write_trick};
use cards::{Card, DeviceFault, Seat, Sink, Trump};

/// Writes the text of these cards, played under a declarer and a trump from the opening lead on: a line for each
/// trick, and the line of both sides' tricks. After a fault of the sink a beginning of it has gone out. Takes no
/// memory.
pub fn write_play<S: Sink>(
    declarer: Seat,
    trump: Trump,
    cards: &[Card],
    output: &mut S,
) -> Result<(), DeviceFault>
    ensures { Writes (S.state output.old) (S.state output.new) (play_text declarer trump cards.now) result }
{
    write_tricks(trump, declarer.next(), cards, output)?;
    write_score(declarer, trump, cards, output)
}

/// Writes the lines of the tricks.
fn write_tricks<S: Sink>(
    trump: Trump,
    first_leader: Seat,
    cards: &[Card],
    output: &mut S,
) -> Result<(), DeviceFault>
    ensures { Writes (S.state output.old) (S.state output.new) (tricks_text trump first_leader cards.now) result }
{
    let mut leader = first_leader;
    for place in 0..cards.len().div_ceil(4) {
        let trick = trick_at(cards, place);
        write_trick(place as u64 + 1, trump, leader, trick, output)?;
        leader = leads_next(trump, leader, trick);
    }
    Ok(())
}

/// The cards of the trick in this place, from 0: four, or fewer where the play is not whole.
fn trick_at(cards: &[Card], place: usize) -> &[Card]
    requires { 4 * place < length cards.now }
    ensures { result.now ≡ take 4 (drop (4 * place) cards.now) }
{
    let begin = 4 * place;
    let rest = &cards[begin..];
    &rest[..rest.len().min(4)]
}
