//! The line of a trick.

ghost use Rattle.std.specs.Prelude.{◌≡◌, ◌∷◌, ◌≤◌, length};
ghost use Rattle.cards.specs.Devices.{Writes};
ghost use Rattle.cards.specs.Seats.{seat_letter};
ghost use Rattle.play_rules.specs.History.{leader_after};
ghost use Rattle.play_dialogues.specs.PlayText.{winner_text, play_trick_line};

use cards::{Card, DeviceFault, Seat, Sink, Trump, write_all, write_cards, write_number};
use play_rules::winner;

/// Writes the line of a trick with this number.
pub(crate) fn write_trick<S: Sink>(
    number: u64,
    trump: Trump,
    leader: Seat,
    cards: &[Card],
    output: &mut S,
) -> Result<(), DeviceFault>
    ensures { Writes (S.state output.old) (S.state output.new) (play_trick_line number trump leader cards.now) result }
{
    write_number(output, number)?;
    write_seat(leader, output)?;
    write_all(output, b":")?;
    write_cards(cards, output)?;
    write_winner(trump, leader, cards, output)?;
    write_all(output, b"\n")
}

/// The seat that leads after the trick: its winner, or still its leader where it is not whole.
pub(crate) fn leads_next(trump: Trump, leader: Seat, cards: &[Card]) -> Seat
    requires { length cards.now ≤ 4 }
    ensures { result ≡ leader_after trump leader cards.now }
{
    match cards {
        [first, second, third, fourth] => winner(trump, leader, *first, *second, *third, *fourth),
        _ => leader,
    }
}

/// Writes a blank and the letter of the seat.
fn write_seat<S: Sink>(seat: Seat, output: &mut S) -> Result<(), DeviceFault>
    ensures { Writes (S.state output.old) (S.state output.new) (32 ∷ seat_letter seat) result }
{
    write_all(output, b" ")?;
    write_all(output, seat.letter().as_bytes())
}

/// Writes who has won the trick, and nothing where it is not whole.
fn write_winner<S: Sink>(
    trump: Trump,
    leader: Seat,
    cards: &[Card],
    output: &mut S,
) -> Result<(), DeviceFault>
    ensures { Writes (S.state output.old) (S.state output.new) (winner_text trump leader cards.now) result }
{
    match cards {
        [first, second, third, fourth] => write_seat(
            winner(trump, leader, *first, *second, *third, *fourth),
            output,
        ),
        _ => Ok(()),
    }
}
