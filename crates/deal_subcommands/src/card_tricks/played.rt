//! The cards that words say were played to a trick.

ghost use Rattle.std.specs.Prelude.{◌<◌, length};
ghost use Rattle.deal_subcommands.specs.CardTricks.Played.{BeginsTrick, PlaysWord, AreWordsPlayed};

use crate::card_tricks::options::{CardsOptions, PlayedWords};
use crate::faults::DealFault;
use card_values::{TrickFault, TrickInProgress};
use pbn_deals::read_layout;
use play_dialogues::read_card;

/// Which of the words for played cards.
#[derive(Clone, Copy, Debug, PartialEq, Eq)]
pub enum WordPlace {
    /// The first.
    First,
    /// The second.
    Second,
    /// The third.
    Third,
}

/// Plays the card that a word names, if there is a word.
fn play_word(
    trick: &mut TrickInProgress,
    place: WordPlace,
    word: Option<&str>,
) -> Result<(), DealFault>
    requires { length trick.old.history < 3 }
    ensures { PlaysWord place word.entry trick.old trick.new result }
{
    let Some(word) = word else {
        return Ok(());
    };
    let Some(card) = read_card(word.as_bytes()) else {
        return Err(DealFault::NoCard(place));
    };
    match trick.play(card) {
        Ok(()) => Ok(()),
        Err(TrickFault::Play(fault)) => Err(DealFault::Unplayable(place, fault)),
        Err(TrickFault::Whole) => unreachable!(),
    }
}

/// Plays the cards that the words name.
fn play_words(trick: &mut TrickInProgress, words: PlayedWords<'_>) -> Result<(), DealFault>
    requires { length trick.old.history < 1 }
    ensures { AreWordsPlayed words.entry trick.old trick.new result }
{
    if let Err(fault) = play_word(trick, WordPlace::First, words.first) {
        return Err(fault);
    }
    if let Err(fault) = play_word(trick, WordPlace::Second, words.second) {
        return Err(fault);
    }
    play_word(trick, WordPlace::Third, words.third)
}

/// Returns the trick in progress of these options. Refuses bytes that spell no layout, and then the first word that
/// names no card or one that may not be played.
pub(crate) fn trick_of(options: CardsOptions<'_>) -> Result<TrickInProgress, DealFault>
    ensures { BeginsTrick options.entry result }
{
    let layout = match read_layout(options.layout.as_bytes()) {
        Ok(layout) => layout,
        Err(fault) => return Err(DealFault::Layout(fault)),
    };
    let mut trick = TrickInProgress::new(layout, options.leader, options.trump);
    match play_words(&mut trick, options.played) {
        Ok(()) => Ok(trick),
        Err(fault) => Err(fault),
    }
}
