//! What is counted of plays.

ghost use Rattle.std.specs.Prelude.{◌≡◌, ◌≤◌, count_by, length};
ghost use Rattle.play_pages.specs.Tasks.{lines_in};
ghost use Rattle.play_pages.specs.Counts.{lost_by, unknown_by, one_if_unknown, lost_in, unknown_in, missing_in};
ghost use Rattle.play_pages.specs.Counts.{missing_of, missing_count, is_passed_over, is_lacking, is_illegal, is_cut};
ghost use Rattle.play_pages.specs.Texts.{total_of};

use crate::cards_text::known_loss;
use crate::lines::{CardLine, PlayLines};
use crate::page_tables::PageTable;
use cards::Seat;
use recorded_plays::{Lack, PlayEnd, RecordedGame, RecordedPlay};

/// One if the number isn't known.
fn one_if_unknown(number: Option<u8>) -> usize
    ensures one { result ≡ one_if_unknown number }
    ensures at_most_1 { result ≤ 1 }
{
    match number {
        Some(_) => 0,
        None => 1,
    }
}

/// The tricks that the card is known to lose, if this seat played it.
fn lost_in(seat: Seat, line: &CardLine) -> u64
    ensures lost { result ≡ lost_in seat line.now }
    ensures at_most_255 { result ≤ 255 }
{
    if line.seat == seat {
        known_loss(line) as u64
    } else {
        0
    }
}

/// One if this seat played the card, and what it loses isn't known.
fn unknown_in(seat: Seat, line: &CardLine) -> usize
    ensures one { result ≡ unknown_in seat line.now }
    ensures at_most_1 { result ≤ 1 }
{
    if line.seat == seat {
        one_if_unknown(line.lost)
    } else {
        0
    }
}

/// The tricks that cards of this seat are known to lose.
#[tactic(auto, unfolding(crate::specs::Counts::lost_by))]
fn lost_by(seat: Seat, lines: &[CardLine]) -> u64
    requires { length lines.now ≤ 52 }
    ensures { result ≡ lost_by seat lines.now }
{
    let mut lost = 0;
    for line in lines {
        lost += lost_in(seat, line);
    }
    lost
}

/// Of how many cards of this seat it isn't known what they lose.
#[tactic(auto, unfolding(crate::specs::Counts::unknown_by))]
fn unknown_by(seat: Seat, lines: &[CardLine]) -> usize
    requires { length lines.now ≤ 52 }
    ensures { result ≡ unknown_by seat lines.now }
{
    let mut unknown = 0;
    for line in lines {
        unknown += unknown_in(seat, line);
    }
    unknown
}

/// What a seat loses in all, if it is known of each of its cards.
pub fn total_of(seat: Seat, lines: &[CardLine]) -> Option<u64>
    requires { length lines.now ≤ 52 }
    ensures { result ≡ total_of seat lines.now }
{
    if unknown_by(seat, lines) == 0 {
        Some(lost_by(seat, lines))
    } else {
        None
    }
}

/// How many numbers of a play aren't known.
#[tactic(auto, unfolding(crate::specs::Counts::missing_in))]
fn missing_in(lines: &PlayLines) -> usize
    ensures count { result ≡ missing_in lines.now }
    ensures at_most_53 { result ≤ 53 }
{
    let cards = lines.lines.as_slice();
    let mut missing = one_if_unknown(lines.start);
    for line in cards {
        missing += one_if_unknown(line.after);
    }
    missing
}

/// How many numbers of a game aren't known, if it has a play.
fn missing_of(play: &Result<RecordedPlay, Lack>, lines: &PlayLines) -> usize
    ensures count { result ≡ missing_of play.now lines.now }
    ensures at_most_53 { result ≤ 53 }
{
    match play {
        Ok(_) => missing_in(lines),
        Err(_) => 0,
    }
}

/// How many numbers of all plays aren't known.
#[tactic(auto, unfolding(crate::specs::Counts::missing_count))]
pub(crate) fn count_missing(games: &[RecordedGame<'_>], table: &PageTable) -> usize
    ensures { result ≡ missing_count games.now (lines_in table.now) }
{
    let none = PlayLines::none();
    let mut missing = 0;
    for (place, game) in games.iter().enumerate() {
        missing += missing_of(&game.play, table.lines(place, &none));
    }
    missing
}

/// Whether the board was passed out, or no play is recorded.
fn is_passed_over(game: &RecordedGame<'_>) -> bool
    ensures { result ≡ is_passed_over game.now }
{
    matches!(&game.play, Err(Lack::PassedOut | Lack::Play))
}

/// Whether the deal, the contract or the declarer is missing.
fn is_lacking(game: &RecordedGame<'_>) -> bool
    ensures { result ≡ is_lacking game.now }
{
    matches!(
        &game.play,
        Err(Lack::Deal | Lack::Contract | Lack::Declarer)
    )
}

/// Whether the play ends before a card that isn't legal.
fn is_illegal(game: &RecordedGame<'_>) -> bool
    ensures { result ≡ is_illegal game.now }
{
    match &game.play {
        Ok(play) => matches!(play.end, PlayEnd::Illegal(_)),
        Err(_) => false,
    }
}

/// Whether the play ends at an irregularity, or at a word that is no card.
fn is_cut(game: &RecordedGame<'_>) -> bool
    ensures { result ≡ is_cut game.now }
{
    match &game.play {
        Ok(play) => matches!(play.end, PlayEnd::Irregular | PlayEnd::Unread),
        Err(_) => false,
    }
}

/// How many games are passed over.
pub(crate) fn count_passed_over(games: &[RecordedGame<'_>]) -> usize
    ensures { result ≡ count_by is_passed_over games.now }
{
    let mut count = 0;
    for game in games {
        if is_passed_over(game) {
            count += 1;
        }
    }
    count
}

/// How many games lack the deal, the contract or the declarer.
pub(crate) fn count_lacking(games: &[RecordedGame<'_>]) -> usize
    ensures { result ≡ count_by is_lacking games.now }
{
    let mut count = 0;
    for game in games {
        if is_lacking(game) {
            count += 1;
        }
    }
    count
}

/// How many plays end before a card that isn't legal.
pub(crate) fn count_illegal(games: &[RecordedGame<'_>]) -> usize
    ensures { result ≡ count_by is_illegal games.now }
{
    let mut count = 0;
    for game in games {
        if is_illegal(game) {
            count += 1;
        }
    }
    count
}

/// How many plays end at an irregularity, or at a word that is no card.
pub(crate) fn count_cut(games: &[RecordedGame<'_>]) -> usize
    ensures { result ≡ count_by is_cut games.now }
{
    let mut count = 0;
    for game in games {
        if is_cut(game) {
            count += 1;
        }
    }
    count
}
