//! A game on a sheet of plays.

ghost use Rattle.std.specs.Prelude.{◌≡◌};
ghost use Rattle.cards.specs.Devices.{Writes};
ghost use Rattle.play_sheets.specs.Games.{seat_template, seat_text, seats_text, words_text, facts_text, holds_text};
ghost use Rattle.play_sheets.specs.Games.{reason_text, illegal_text, end_text, play_text, block_text};
ghost use Rattle.play_sheets.specs.Games.{lack_block, lack_text, game_by};

use crate::cells::{suit_template, write_card};
use crate::templates::{
    CONTRACT, DECLARER, DECLARES, HELD_BY, HOLDS, HOLDS_END, ILLEGAL, LACK, NOT_HELD, TURN,
};
use crate::tricks::write_table;
use cards::{DeviceFault, Seat, Sink, Suit, write_all};
use play_pages::PlayLines;
use recorded_plays::{IllegalCard, IllegalReason, Lack, PlayEnd, RecordedGame, RecordedPlay};
use sheets::templates::{BOARD, BOARD_END, COMPASS, FACTS, HANDS, SEAT};
use sheets::{write_hands, write_with, write_with_number, write_with_seat};

/// The template of a seat of the compass.
fn seat_template(declarer: Seat, seat: Seat) -> &'static [u8]
    ensures { result.now ≡ seat_template declarer seat }
{
    if declarer == seat { DECLARES } else { SEAT }
}

/// Writes a seat of the compass.
fn write_seat<S: Sink>(sink: &mut S, declarer: Seat, seat: Seat) -> Result<(), DeviceFault>
    ensures { Writes (S.state sink.old) (S.state sink.new) (seat_text declarer seat) result }
{
    write_with_seat(sink, seat_template(declarer, seat), seat)
}

/// Writes the four seats of the compass.
#[tactic(auto, unfolding(crate::specs::Games::seats_text))]
fn write_seats<S: Sink>(sink: &mut S, declarer: Seat) -> Result<(), DeviceFault>
    ensures { Writes (S.state sink.old) (S.state sink.new) (seats_text declarer) result }
{
    write_seat(sink, declarer, Seat::North)?;
    write_seat(sink, declarer, Seat::West)?;
    write_seat(sink, declarer, Seat::East)?;
    write_seat(sink, declarer, Seat::South)
}

/// Writes the declarer and the contract in words.
#[tactic(auto, unfolding(crate::specs::Games::words_text))]
fn write_words<S: Sink>(sink: &mut S, declarer: Seat, contract: &[u8]) -> Result<(), DeviceFault>
    ensures { Writes (S.state sink.old) (S.state sink.new) (words_text declarer contract.now) result }
{
    write_with_seat(sink, DECLARER, declarer)?;
    write_with(sink, CONTRACT, contract)
}

/// Writes the declarer and the contract in words, and the compass.
#[tactic(auto, unfolding(crate::specs::Games::facts_text))]
fn write_facts<S: Sink>(sink: &mut S, declarer: Seat, contract: &[u8]) -> Result<(), DeviceFault>
    ensures { Writes (S.state sink.old) (S.state sink.new) (facts_text declarer contract.now) result }
{
    write_all(sink, FACTS)?;
    write_words(sink, declarer, contract)?;
    write_all(sink, COMPASS)?;
    write_seats(sink, declarer)?;
    write_all(sink, HANDS)
}

/// Writes the suit that the player has to follow.
#[tactic(auto, unfolding(crate::specs::Games::holds_text))]
fn write_holds<S: Sink>(sink: &mut S, suit: Suit) -> Result<(), DeviceFault>
    ensures { Writes (S.state sink.old) (S.state sink.new) (holds_text suit) result }
{
    write_all(sink, HOLDS)?;
    write_with(sink, suit_template(suit), b"")?;
    write_all(sink, HOLDS_END)
}

/// Writes why a card isn't legal.
fn write_reason<S: Sink>(sink: &mut S, reason: IllegalReason) -> Result<(), DeviceFault>
    ensures { Writes (S.state sink.old) (S.state sink.new) (reason_text reason) result }
{
    match reason {
        IllegalReason::NotHeld => write_all(sink, NOT_HELD),
        IllegalReason::OutOfTurn(seat) => write_with_seat(sink, HELD_BY, seat),
        IllegalReason::HoldsSuit(suit) => write_holds(sink, suit),
    }
}

/// Writes the card that isn't legal.
#[tactic(auto, unfolding(crate::specs::Games::illegal_text))]
fn write_illegal<S: Sink>(sink: &mut S, illegal: IllegalCard) -> Result<(), DeviceFault>
    ensures { Writes (S.state sink.old) (S.state sink.new) (illegal_text illegal) result }
{
    write_with_number(sink, ILLEGAL, illegal.trick as u64)?;
    write_with_seat(sink, TURN, illegal.seat)?;
    write_card(sink, illegal.card)?;
    write_reason(sink, illegal.reason)
}

/// Writes the card that isn't legal, if the play ends before one.
fn write_end<S: Sink>(sink: &mut S, end: PlayEnd) -> Result<(), DeviceFault>
    ensures { Writes (S.state sink.old) (S.state sink.new) (end_text end) result }
{
    match end {
        PlayEnd::Illegal(illegal) => write_illegal(sink, illegal),
        PlayEnd::Whole | PlayEnd::Early | PlayEnd::Unknown | PlayEnd::Irregular | PlayEnd::Unread =>
            Ok(()),
    }
}

/// Writes the play of a game, below the board's name.
#[tactic(auto, unfolding(crate::specs::Games::play_text))]
fn write_play<S: Sink>(
    sink: &mut S,
    contract: &[u8],
    play: &RecordedPlay,
    lines: &PlayLines,
) -> Result<(), DeviceFault>
    ensures { Writes (S.state sink.old) (S.state sink.new) (play_text contract.now play.now lines.now) result }
{
    write_facts(sink, play.declarer, contract)?;
    write_hands(sink, &play.deal)?;
    write_table(sink, play.trump, lines)?;
    write_end(sink, play.end)
}

/// Writes the block of a game with a play.
#[tactic(auto, unfolding(crate::specs::Games::block_text))]
fn write_block<S: Sink>(
    sink: &mut S,
    game: &RecordedGame<'_>,
    play: &RecordedPlay,
    lines: &PlayLines,
) -> Result<(), DeviceFault>
    ensures { Writes (S.state sink.old) (S.state sink.new)
        (block_text game.now.board.now (play_text game.now.contract.now play.now lines.now)) result }
{
    write_with(sink, BOARD, game.board)?;
    write_play(sink, game.contract, play, lines)?;
    write_all(sink, BOARD_END)
}

/// Writes the block of a game that lacks something.
#[tactic(auto, unfolding(crate::specs::Games::block_text))]
fn write_lack_block<S: Sink>(sink: &mut S, board: &[u8], words: &[u8]) -> Result<(), DeviceFault>
    ensures { Writes (S.state sink.old) (S.state sink.new) (lack_block board.now words.now) result }
{
    write_with(sink, BOARD, board)?;
    write_with(sink, LACK, words)?;
    write_all(sink, BOARD_END)
}

/// Writes what a game lacks, unless it is passed over.
fn write_lack<S: Sink>(sink: &mut S, board: &[u8], lack: Lack) -> Result<(), DeviceFault>
    ensures { Writes (S.state sink.old) (S.state sink.new) (lack_text board.now lack) result }
{
    match lack {
        Lack::PassedOut | Lack::Play => Ok(()),
        Lack::Deal => write_lack_block(sink, board, b"no deal"),
        Lack::Contract => write_lack_block(sink, board, b"no contract"),
        Lack::Declarer => write_lack_block(sink, board, b"no declarer"),
    }
}

/// Writes the block of a game, unless it is passed over.
pub(crate) fn write_game<S: Sink>(
    sink: &mut S,
    game: &RecordedGame<'_>,
    lines: &PlayLines,
) -> Result<(), DeviceFault>
    ensures { Writes (S.state sink.old) (S.state sink.new)
        (game_by game.now.board.now game.now.contract.now game.now.play lines.now) result }
{
    match &game.play {
        Ok(play) => write_block(sink, game, play, lines),
        Err(lack) => write_lack(sink, game.board, *lack),
    }
}
