//! The page of plays as a text.

ghost use Rattle.std.specs.Prelude.{◌≤◌, ◌++◌, codes, length};
ghost use Rattle.cards.specs.Devices.{Writes};
ghost use Rattle.tables.specs.TablesText.{tag_line};
ghost use Rattle.play_pages.specs.Tasks.{lines_in};
ghost use Rattle.play_pages.specs.Texts.{asked_line, lines_text, marked_text, start_text, end_text, total_text};
ghost use Rattle.play_pages.specs.Texts.{lost_text, play_text, block_text, lack_text, game_by, page_text};

use crate::cards_text::{is_mistake, wide, write_known, write_line, write_stop};
use crate::counts::total_of;
use crate::lines::{CardLine, PlayLines};
use crate::page_tables::PageTable;
use cards::{DeviceFault, Seat, Sink, write_all};
use recorded_plays::{Lack, RecordedGame, RecordedPlay};

/// Writes the line of the card in this place, counted from 0, if it is asked for.
fn write_asked<S: Sink>(
    sink: &mut S,
    mistakes: bool,
    place: usize,
    line: &CardLine,
) -> Result<(), DeviceFault>
    ensures { Writes (S.state sink.old) (S.state sink.new) (asked_line mistakes (place, line.now)) result }
{
    if mistakes && !is_mistake(line) {
        Ok(())
    } else {
        write_line(sink, place / 4 + 1, line)
    }
}

/// Writes the lines of a play's cards, as far as they are asked for.
#[tactic(auto, unfolding(crate::specs::Texts::lines_text))]
fn write_lines<S: Sink>(sink: &mut S, mistakes: bool, lines: &[CardLine]) -> Result<(), DeviceFault>
    ensures { Writes (S.state sink.old) (S.state sink.new) (lines_text mistakes lines.now) result }
{
    for (place, line) in lines.iter().enumerate() {
        write_asked(sink, mistakes, place, line)?;
    }
    Ok(())
}

/// Writes a word and a number in a line.
#[tactic(auto, unfolding(crate::specs::Texts::marked_text))]
fn write_marked<S: Sink>(sink: &mut S, word: &[u8], number: Option<u8>) -> Result<(), DeviceFault>
    ensures { Writes (S.state sink.old) (S.state sink.new) (marked_text word.now number) result }
{
    write_all(sink, word)?;
    write_known(sink, wide(number))?;
    write_all(sink, b"\n")
}

/// Writes the number before the first card, unless just mistakes are asked for.
fn write_start<S: Sink>(sink: &mut S, mistakes: bool, number: Option<u8>) -> Result<(), DeviceFault>
    ensures { Writes (S.state sink.old) (S.state sink.new) (start_text mistakes number) result }
{
    if mistakes {
        Ok(())
    } else {
        write_marked(sink, b"start ", number)
    }
}

/// Writes the number after the last card, unless just mistakes are asked for.
fn write_end<S: Sink>(sink: &mut S, mistakes: bool, number: Option<u8>) -> Result<(), DeviceFault>
    ensures { Writes (S.state sink.old) (S.state sink.new) (end_text mistakes number) result }
{
    if mistakes {
        Ok(())
    } else {
        write_marked(sink, b"end ", number)
    }
}

/// Writes what a seat loses in all.
#[tactic(auto, unfolding(crate::specs::Texts::total_text))]
fn write_total<S: Sink>(sink: &mut S, lines: &[CardLine], seat: Seat) -> Result<(), DeviceFault>
    requires { length lines.now ≤ 52 }
    ensures { Writes (S.state sink.old) (S.state sink.new) (total_text lines.now seat) result }
{
    write_all(sink, b" ")?;
    write_all(sink, seat.letter().as_bytes())?;
    write_all(sink, b" ")?;
    write_known(sink, total_of(seat, lines))
}

/// Writes what the seats lose in all.
#[tactic(auto, unfolding(crate::specs::Texts::lost_text))]
fn write_lost<S: Sink>(sink: &mut S, lines: &[CardLine]) -> Result<(), DeviceFault>
    requires { length lines.now ≤ 52 }
    ensures { Writes (S.state sink.old) (S.state sink.new) (lost_text lines.now) result }
{
    write_all(sink, b"lost")?;
    write_total(sink, lines, Seat::North)?;
    write_total(sink, lines, Seat::East)?;
    write_total(sink, lines, Seat::South)?;
    write_total(sink, lines, Seat::West)?;
    write_all(sink, b"\n")
}

/// Writes a tag pair on a line of its own. The name comes with its bracket and quote.
fn write_tag<S: Sink>(sink: &mut S, name: &[u8], value: &[u8]) -> Result<(), DeviceFault>
    ensures { Writes (S.state sink.old) (S.state sink.new) (name.now ++ (value.now ++ codes "\"]\n")) result }
{
    write_all(sink, name)?;
    write_all(sink, value)?;
    write_all(sink, b"\"]\n")
}

/// Writes the play of a game below its Board tag.
#[tactic(auto, unfolding(crate::specs::Texts::play_text))]
fn write_play<S: Sink>(
    sink: &mut S,
    mistakes: bool,
    contract: &[u8],
    play: &RecordedPlay,
    lines: &PlayLines,
) -> Result<(), DeviceFault>
    ensures { Writes (S.state sink.old) (S.state sink.new) (play_text mistakes contract.now play.now lines.now) result }
{
    let cards = lines.lines.as_slice();
    write_tag(sink, b"[Declarer \"", play.declarer.letter().as_bytes())?;
    write_tag(sink, b"[Contract \"", contract)?;
    write_start(sink, mistakes, lines.start)?;
    write_lines(sink, mistakes, cards)?;
    write_stop(sink, play.end)?;
    write_end(sink, mistakes, lines.end)?;
    write_lost(sink, cards)
}

/// Writes the Board tag of a block.
fn write_board<S: Sink>(sink: &mut S, board: &[u8]) -> Result<(), DeviceFault>
    ensures { Writes (S.state sink.old) (S.state sink.new) (tag_line (codes "Board") board.now) result }
{
    write_tag(sink, b"[Board \"", board)
}

/// Writes the block of a game that lacks something.
#[tactic(auto, unfolding(crate::specs::Texts::block_text))]
fn write_lack_block<S: Sink>(sink: &mut S, board: &[u8], text: &[u8]) -> Result<(), DeviceFault>
    ensures { Writes (S.state sink.old) (S.state sink.new) (block_text board.now text.now) result }
{
    write_board(sink, board)?;
    write_all(sink, text)?;
    write_all(sink, b"\n")
}

/// Writes what a game lacks, unless it is passed over.
fn write_lack<S: Sink>(sink: &mut S, board: &[u8], lack: Lack) -> Result<(), DeviceFault>
    ensures { Writes (S.state sink.old) (S.state sink.new) (lack_text board.now lack) result }
{
    match lack {
        Lack::PassedOut | Lack::Play => Ok(()),
        Lack::Deal => write_lack_block(sink, board, b"no deal\n"),
        Lack::Contract => write_lack_block(sink, board, b"no contract\n"),
        Lack::Declarer => write_lack_block(sink, board, b"no declarer\n"),
    }
}

/// Writes the block of a game that has this play.
#[tactic(auto, unfolding(crate::specs::Texts::block_text))]
fn write_block<S: Sink>(
    sink: &mut S,
    mistakes: bool,
    game: &RecordedGame<'_>,
    play: &RecordedPlay,
    lines: &PlayLines,
) -> Result<(), DeviceFault>
    ensures { Writes (S.state sink.old) (S.state sink.new)
        (block_text game.now.board.now (play_text mistakes game.now.contract.now play.now lines.now)) result }
{
    write_board(sink, game.board)?;
    write_play(sink, mistakes, game.contract, play, lines)?;
    write_all(sink, b"\n")
}

/// Writes the block of a game, unless it is passed over.
fn write_game<S: Sink>(
    sink: &mut S,
    mistakes: bool,
    game: &RecordedGame<'_>,
    lines: &PlayLines,
) -> Result<(), DeviceFault>
    ensures { Writes (S.state sink.old) (S.state sink.new)
        (game_by mistakes game.now.board.now game.now.contract.now game.now.play lines.now) result }
{
    match &game.play {
        Ok(play) => write_block(sink, mistakes, game, play, lines),
        Err(lack) => write_lack(sink, game.board, *lack),
    }
}

/// Writes the page as a text. If the sink fails, it has got a beginning of it. Takes no memory.
#[tactic(auto, unfolding(crate::specs::Texts::page_text))]
pub fn write_page<S: Sink>(
    sink: &mut S,
    mistakes: bool,
    games: &[RecordedGame<'_>],
    table: &PageTable,
) -> Result<(), DeviceFault>
    ensures { Writes (S.state sink.old) (S.state sink.new) (page_text mistakes games.now (lines_in table.now)) result }
{
    let none = PlayLines::none();
    write_all(sink, b"% ddfarm plays 1\n")?;
    for (place, game) in games.iter().enumerate() {
        write_game(sink, mistakes, game, table.lines(place, &none))?;
    }
    Ok(())
}
