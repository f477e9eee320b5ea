//! The line of both sides' tricks.

ghost use Rattle.std.specs.Prelude.{◌≡◌};
ghost use Rattle.cards.specs.Devices.{Writes};
ghost use Rattle.play_rules.specs.History.{tricks_of};
ghost use Rattle.play_dialogues.specs.PlayText.{play_score_line};

use crate::tricks::leads_next;
use cards::{Card, DeviceFault, Seat, Side, Sink, Trump, write_all, write_number};

/// Writes how many tricks declarer's side has won, and how many the defenders.
pub(crate) fn write_score<S: Sink>(
    declarer: Seat,
    trump: Trump,
    cards: &[Card],
    output: &mut S,
) -> Result<(), DeviceFault>
    ensures { Writes (S.state output.old) (S.state output.new) (play_score_line declarer trump cards.now) result }
{
    let leader = declarer.next();
    let side = declarer.side();
    write_all(output, b"declarer ")?;
    write_number(output, count_tricks(side, trump, leader, cards))?;
    write_all(output, b", defenders ")?;
    write_number(output, count_tricks(side.other(), trump, leader, cards))?;
    write_all(output, b"\n")
}

/// How many of the whole tricks the side has won.
fn count_tricks(side: Side, trump: Trump, leader: Seat, cards: &[Card]) -> u64
    ensures { result ≡ tricks_of side trump leader cards.now }
{
    let mut leader = leader;
    let mut won = 0;
    let mut rest = cards;
    while rest.len() >= 4 {
        let (trick, others) = rest.split_at(4);
        leader = leads_next(trump, leader, trick);
        if leader.side() == side {
            won += 1;
        }
        rest = others;
    }
    won
}
