//! A sheet of plays.

ghost use Rattle.cards.specs.Devices.{Writes};
ghost use Rattle.play_pages.specs.Tasks.{lines_in};
ghost use Rattle.play_sheets.specs.Pages.{head_text, games_text, plays_sheet};

use crate::games::write_game;
use crate::templates::{BODY, HEAD, NEXT_STYLE, STYLE};
use cards::{DeviceFault, Sink, write_all};
use play_pages::{PageTable, PlayLines};
use recorded_plays::RecordedGame;
use sheets::templates::{END, STYLE as SHEET_STYLE};

/// Writes the head of the page.
#[tactic(auto, unfolding(crate::specs::Pages::head_text))]
fn write_head<S: Sink>(sink: &mut S) -> Result<(), DeviceFault>
    ensures { Writes (S.state sink.old) (S.state sink.new) head_text result }
{
    write_all(sink, HEAD)?;
    write_all(sink, SHEET_STYLE)?;
    write_all(sink, NEXT_STYLE)?;
    write_all(sink, STYLE)?;
    write_all(sink, BODY)
}

/// Writes the games, each with the lines of its play.
#[tactic(auto, unfolding(crate::specs::Pages::games_text))]
fn write_games<S: Sink>(
    sink: &mut S,
    games: &[RecordedGame<'_>],
    table: &PageTable,
) -> Result<(), DeviceFault>
    ensures { Writes (S.state sink.old) (S.state sink.new) (games_text games.now (lines_in table.now)) result }
{
    let none = PlayLines::none();
    for (place, game) in games.iter().enumerate() {
        write_game(sink, game, table.lines(place, &none))?;
    }
    Ok(())
}

/// Writes a page of HTML with a block for each game: the diagram, the play as a table of tricks, and the tricks that
/// each seat loses. If the sink fails, it has got a beginning of the page. Takes no memory.
#[tactic(auto, unfolding(crate::specs::Pages::plays_sheet))]
pub fn write_sheet<S: Sink>(
    sink: &mut S,
    games: &[RecordedGame<'_>],
    table: &PageTable,
) -> Result<(), DeviceFault>
    ensures { Writes (S.state sink.old) (S.state sink.new) (plays_sheet games.now (lines_in table.now)) result }
{
    write_head(sink)?;
    write_games(sink, games, table)?;
    write_all(sink, END)
}
