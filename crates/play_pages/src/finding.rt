//! The lines of a play: a solver is asked, and its answer is judged.

ghost use Rattle.std.specs.Prelude.{◌≡◌, ◌<◌, ◌++◌, ◌∷◌, [], Some, length, slice_get};
ghost use Rattle.std.specs.Option.{option_copied};
ghost use Rattle.play_rules.specs.Legal.{IsLegalHistory};
ghost use Rattle.play_rules.specs.Position.{with_card};
ghost use Rattle.play_evidence.specs.Sections.{MakesPlaySection};
ghost use Rattle.play_pages.specs.Lines.{recorded_of, line_of, AreLinesOf, IsLegalPlay};
ghost use Rattle.play_pages.specs.Answers.{AreFoundLines, AreKeptLines, numbers_in, section_of};

use crate::lines::{CardLine, PlayLines, change};
use crate::queries::PlayQuery;
use arrayvec::ArrayVec;
use cards::{Card, OutOfMemory};
use certified_plays::{PlayFound, PlayValues, certified_play};
use play_claims::{PlayBundle, PlaySolver};
use play_evidence::PlaySection;
use play_values::RecordedPlay;
use std::alloc::Global;

/// Records a card that is legal after those before it.
fn record_card(recorded: &mut RecordedPlay, card: Card)
    requires { IsLegalHistory recorded.old.position.opening (recorded.old.position.history ++ card ∷ []) }
    ensures { recorded.new ≡ record recorded.old { position = with_card recorded.old.position card } }
{
    recorded.invariant();
    match recorded.play(card) {
        Ok(()) => (),
        Err(_) => unreachable!(),
    }
}

/// The play of a game, card by card on a table.
fn recorded(play: &recorded_plays::RecordedPlay) -> RecordedPlay
    requires { IsLegalPlay play.now }
    ensures { result ≡ recorded_of play.now }
{
    let declarer = play.declarer;
    let cards = play.cards.as_slice();
    let mut recorded = RecordedPlay::new(play.deal, declarer.next(), play.trump, declarer.side());
    for place in 0..cards.len() {
        record_card(&mut recorded, cards[place]);
    }
    recorded
}

/// The number after this many first cards, if it is known.
fn number(values: Option<&PlayValues>, count: usize) -> Option<u8>
    ensures { result ≡ numbers_in (option_copied values.entry) count }
{
    match values {
        Some(values) => values.value(count),
        None => None,
    }
}

/// The line of the card in this place, counted from 0.
fn line_at(play: &RecordedPlay, values: Option<&PlayValues>, place: usize) -> CardLine
    requires { place < length play.now.position.history }
    ensures line { result ≡ line_of play.now (numbers_in (option_copied values.entry)) (place, result.card) }
    ensures card { slice_get play.now.position.history place ≡ Some result.card }
{
    let cards = play.cards();
    let after = number(values, place + 1);
    CardLine {
        seat: play.player(place),
        card: cards[place],
        after,
        lost: change(number(values, place), after),
    }
}

/// The lines of a play with these values and this evidence, if there are any.
fn lines_of(
    play: &RecordedPlay,
    values: Option<&PlayValues>,
    section: Option<PlaySection>,
) -> PlayLines
    ensures lines { AreLinesOf play.now (numbers_in (option_copied values.entry)) result }
    ensures section { result.section ≡ section }
{
    play.invariant();
    let count = play.cards().len();
    let mut lines = ArrayVec::new();
    for place in 0..count {
        lines.push(line_at(play, values, place));
    }
    PlayLines {
        start: number(values, 0),
        lines,
        end: number(values, count),
        section,
    }
}

/// The cards of a play, once more.
fn cards_of(play: &recorded_plays::RecordedPlay) -> ArrayVec<Card, 52>
    ensures { result.items ≡ play.now.cards.items }
{
    let mut cards = ArrayVec::new();
    match cards.try_extend_from_slice(play.cards.as_slice()) {
        Ok(()) => cards,
        Err(_) => unreachable!(),
    }
}

/// The section of a play with these claims and nodes, if they are one.
fn section_of(play: &recorded_plays::RecordedPlay, bundle: PlayBundle) -> Option<PlaySection>
    ensures { MakesPlaySection (section_of play.now bundle) result }
{
    PlaySection::new(
        play.deal,
        play.declarer.next(),
        play.trump,
        cards_of(play),
        bundle,
    )
}

/// The lines of a play with the numbers that an answer shows, and the section of the answer. If it makes no section, no
/// number is known.
fn kept_lines(play: &recorded_plays::RecordedPlay, found: PlayFound) -> PlayLines
    requires { IsLegalPlay play.now }
    ensures { AreKeptLines play.now found result }
{
    let PlayFound { values, bundle } = found;
    match section_of(play, bundle) {
        Some(section) => lines_of(&recorded(play), Some(&values), Some(section)),
        None => lines_of(&recorded(play), None, None),
    }
}

/// Asks the solver for the numbers of a play, and returns its lines with the numbers that the answer shows, and its
/// section if that is to be kept. None is known if memory ran out in the call.
pub(crate) fn find_lines<S: PlaySolver>(
    alloc: Global,
    play: &recorded_plays::RecordedPlay,
    query: PlayQuery,
    solver: &S,
) -> PlayLines
    requires { IsLegalPlay play.now }
    ensures { AreFoundLines (S.may_find_play solver.now) query play.now result }
{
    match certified_play(alloc, recorded(play), query.budget, solver) {
        Ok(found) => {
            found.values.invariant();
            if query.keeps {
                kept_lines(play, found)
            } else {
                lines_of(&recorded(play), Some(&found.values), None)
            }
        }
        Err(OutOfMemory) => lines_of(&recorded(play), None, None),
    }
}
