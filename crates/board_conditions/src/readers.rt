//! A whole text, game by game.

ghost use Rattle.std.specs.Prelude.{◌≡◌, ◌≢◌, ◌<◌, ◌∷◌, [], false, Bool, List, length, map, IfOk};
ghost use Rattle.pbn_deals.specs.Pieces.{Line, rows_of, AreLines};
ghost use Rattle.board_conditions.specs.Games.{Game, games_of, conditions_of, HasConditions};
ghost use Rattle.board_conditions.specs.Titles.{HasTitles, HasFirstTitles, titles_said};
ghost use Rattle.board_conditions.specs.Values.{IsFirstGame};

use crate::conditions::Conditions;
use crate::game_texts::GameText;
use crate::titles::Titles;
use pbn_deals::{first_row, without_mark};
use std::alloc::{AllocError, Global};

/// The first game of a text.
fn first_game(text: &[u8]) -> GameText<'_>
    ensures is { (lines : List Line) (last : Bool) → AreLines false (rows_of text.now) lines last
        → IsFirstGame lines result }
    ensures shorter { text.now ≢ [] → length result.rest.now < length text.now }
{
    let mut game = GameText::new(text);
    while let Some((row, after)) = first_row(game.rest) {
        let Some(next) = game.with_line(row.bytes) else {
            return GameText {
                rest: after,
                ..game
            };
        };
        game = GameText {
            rest: after,
            ..next
        };
    }
    game
}

/// The conditions of the first game of a text, or of a rest of a text from the beginning of a game on. A byte order
/// mark is no part of it.
pub fn first_conditions(text: &[u8]) -> Conditions
    ensures { (lines : List Line) (last : Bool) (game : Game) (later : List Game)
        → AreLines false (rows_of text.now) lines last → games_of lines ≡ game ∷ later → result ≡ conditions_of game }
{
    first_game(text).conditions()
}

/// The conditions of the boards of a text, in the order of the boards: one for each game with a Deal tag.
pub fn read_conditions(alloc: Global, text: &[u8]) -> Result<Vec<Conditions>, AllocError>
    ensures { IfOk result (λ list. HasConditions text.now list.items) }
{
    let mut list = Vec::new(alloc);
    let mut rest = without_mark(text);
    while !rest.is_empty() {
        let game = first_game(rest);
        if game.has_deal() {
            list.push(game.conditions())?;
        }
        rest = game.rest;
    }
    Ok(list)
}

/// Where and when the boards of a text were played, in the order of the boards: one for each game with a Deal tag.
pub fn read_titles(alloc: Global, text: &[u8]) -> Result<Vec<Titles<'_>>, AllocError>
    ensures { IfOk result (λ list. HasTitles text.now (map titles_said list.items)) }
{
    let mut list = Vec::new(alloc);
    let mut rest = without_mark(text);
    while !rest.is_empty() {
        let game = first_game(rest);
        if game.has_deal() {
            list.push(game.titles())?;
        }
        rest = game.rest;
    }
    Ok(list)
}

/// The titles of a whole text: the values of its first tags with these names, in whatever games they are.
pub fn first_titles(text: &[u8]) -> Titles<'_>
    ensures { HasFirstTitles text.now (titles_said result) }
{
    let mut game = GameText::new(without_mark(text));
    while let Some((row, after)) = first_row(game.rest) {
        let next = match game.with_line(row.bytes) {
            Some(next) => next,
            None => game,
        };
        game = GameText {
            rest: after,
            ..next
        };
    }
    game.titles()
}
