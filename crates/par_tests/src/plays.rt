//! What a text says of the plays of its games.

use crate::conditions::text_of;
use cards::Card;
use recorded_plays::{
    IllegalCard, IllegalReason, Lack, PlayEnd, RecordedGame, RecordedPlay, read_plays,
};
use std::alloc::{AllocError, Global};

/// Adds board, contract and play of each game of a text.
pub fn answer_plays(alloc: Global, case: &str, out: &mut String) -> Result<(), AllocError> {
    let text = text_of(alloc, case)?;
    let games = read_plays(alloc, text.as_slice())?;
    if games.is_empty() {
        out.push_str("no game")?;
    }
    for (i, game) in games.iter().enumerate() {
        if i > 0 {
            out.push_str(", ")?;
        }
        add_game(game, out)?;
    }
    Ok(())
}

/// Adds a game.
fn add_game(game: &RecordedGame<'_>, out: &mut String) -> Result<(), AllocError> {
    let board = str::from_utf8(game.board).unwrap_or("");
    let contract = str::from_utf8(game.contract).unwrap_or("");
    write!(out, "{board} {contract} ")?;
    match &game.play {
        Ok(play) => add_play(play, out),
        Err(Lack::PassedOut) => out.push_str("passed out"),
        Err(Lack::Play) => out.push_str("no play"),
        Err(Lack::Deal) => out.push_str("no deal"),
        Err(Lack::Contract) => out.push_str("no contract"),
        Err(Lack::Declarer) => out.push_str("no declarer"),
    }
}

/// Adds declarer, denomination, the cards and their end.
fn add_play(play: &RecordedPlay, out: &mut String) -> Result<(), AllocError> {
    let size = play.deal.len();
    write!(out, "{size} {} {}", play.declarer, play.trump)?;
    for card in play.cards.as_slice() {
        write!(out, " {card}")?;
    }
    match play.end {
        PlayEnd::Whole => out.push_str(" whole"),
        PlayEnd::Early => out.push_str(" early"),
        PlayEnd::Unknown => out.push_str(" unknown"),
        PlayEnd::Irregular => out.push_str(" irregular"),
        PlayEnd::Unread => out.push_str(" unread"),
        PlayEnd::Illegal(illegal) => add_illegal(&illegal, out),
    }
}

/// Adds a card that is not legal.
fn add_illegal(illegal: &IllegalCard, out: &mut String) -> Result<(), AllocError> {
    let card: Card = illegal.card;
    write!(out, " illegal {} {} {card}: ", illegal.trick, illegal.seat)?;
    match illegal.reason {
        IllegalReason::NotHeld => out.push_str("not held"),
        IllegalReason::OutOfTurn(holder) => write!(out, "held by {holder}"),
        IllegalReason::HoldsSuit(suit) => write!(out, "holds {suit}"),
    }
}
