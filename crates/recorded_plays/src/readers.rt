//! A whole text, game by game.

ghost use Rattle.std.specs.Prelude.{◌≡◌, ◌≢◌, ◌<◌, [], false, Bool, List, length, IfOk};
ghost use Rattle.pbn_deals.specs.Pieces.{Line, rows_of, AreLines};
ghost use Rattle.recorded_plays.specs.Games.{HasPlays};
ghost use Rattle.recorded_plays.specs.Values.{IsFirstGame};

use crate::game_texts::GameText;
use crate::plays::RecordedGame;
use pbn_deals::{first_row, without_mark};
use std::alloc::{AllocError, Global};

/// The first game of a text, and the text of the games after it.
fn first_game(alloc: Global, text: &[u8]) -> Result<(GameText<'_>, &[u8]), AllocError>
    ensures is { IfOk result (λ found. (lines : List Line) (last : Bool) → AreLines false (rows_of text.now) lines last
        → IsFirstGame lines found.0 found.1.now) }
    ensures shorter { IfOk result (λ found. text.now ≢ [] → length found.1.now < length text.now) }
{
    let mut game = GameText::new(alloc);
    let mut rest = text;
    while let Some((row, after)) = first_row(rest) {
        rest = after;
        if !game.take_line(row.bytes)? {
            return Ok((game, rest));
        }
    }
    Ok((game, rest))
}

/// The plays of a text in PBN 2.1, one for each of its games that has a Deal tag or a Play tag, in the order of the
/// games. Every text has an answer: `Err` says only that memory ran out.
pub fn read_plays(alloc: Global, text: &[u8]) -> Result<Vec<RecordedGame<'_>>, AllocError>
    ensures { IfOk result (λ list. HasPlays text.now list.items) }
{
    let mut list = Vec::new(alloc);
    let mut rest = without_mark(text);
    while !rest.is_empty() {
        let (game, after) = first_game(alloc, rest)?;
        if game.is_recorded() {
            list.push(game.recorded(alloc)?)?;
        }
        rest = after;
    }
    Ok(list)
}
