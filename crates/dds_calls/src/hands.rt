//! The cards of four hands as DDS has them, and the layout that they are.

ghost use Rattle.std.specs.Prelude.{◌≡◌, MatchBool, MatchOption};
ghost use Rattle.cards.specs.declared.suits.Suit.{Suit};
ghost use Rattle.dds_calls.specs.Hands.{AreOfCards, HaveStrayBit, IsOfCards, MeetsHands};
ghost use Rattle.dds_calls.specs.Hands.{HaveSizes, IsSizesFault, cards_in, hand_word, word_in, words_of};
ghost use Rattle.dds_calls.specs.Tables.{hands_code};

use crate::codes::{CARD_COUNT, DUPLICATE_CARDS, SUIT_OR_RANK, TOO_MANY_CARDS, ZERO_CARDS};
use cards::Layout;

/// Four hands, clockwise from North. Each has a word for spades, hearts, diamonds and clubs, in which bit 2 stands for
/// the deuce and bit 14 for the ace.
pub(crate) type Hands = [[u32; 4]; 4];

/// Why four hands are no layout: the first that applies.
#[derive(Clone, Copy)]
pub enum HandsFault {
    /// A word isn't 0, and is below 4 or has a bit above the ace's.
    StrayBit,
    /// There is no card.
    NoCards,
    /// There are over 52 cards.
    TooManyCards,
    /// The hands are of different sizes.
    Unequal,
    /// A card is in two hands.
    CardTwice,
}

impl HandsFault {
    /// Returns DDS's code for it.
    pub(crate) fn code(self) -> i32
        ensures { result ≡ hands_code self }
    {
        match self {
            HandsFault::StrayBit => SUIT_OR_RANK,
            HandsFault::NoCards => ZERO_CARDS,
            HandsFault::TooManyCards => TOO_MANY_CARDS,
            HandsFault::Unequal => CARD_COUNT,
            HandsFault::CardTwice => DUPLICATE_CARDS,
        }
    }
}

/// The most cards of four hands (Law 1).
pub(crate) const PACK: u32 = 52;

/// How many bits a suit has in a hand's word, as a factor.
const SUIT: u64 = 1 << 13;

/// Returns whether a word stands for cards. DDS passes over bits 0 and 1 beside a card.
fn is_of_cards(word: u32) -> bool
    ensures { MatchBool result (IsOfCards word) (IsOfCards word → ⊥) }
{
    word == 0 || 4 <= word && word < 1 << 15
}

/// Returns whether each word of a hand stands for cards.
fn is_hand(suits: &[u32; 4]) -> bool
    ensures { MatchBool result
        ((suit : Suit) → IsOfCards (word_in suits.now suit))
        ((suit : Suit) × (IsOfCards (word_in suits.now suit) → ⊥)) }
{
    let [spades, hearts, diamonds, clubs] = *suits;
    is_of_cards(spades) && is_of_cards(hearts) && is_of_cards(diamonds) && is_of_cards(clubs)
}

/// Returns whether each word of the hands stands for cards.
pub(crate) fn are_of_cards(hands: &Hands) -> bool
    ensures { MatchBool result (AreOfCards hands.now) (HaveStrayBit hands.now) }
{
    let [north, east, south, west] = hands;
    is_hand(north) && is_hand(east) && is_hand(south) && is_hand(west)
}

/// Returns a hand as one word.
fn word_of(suits: &[u32; 4]) -> u64
    requires { (suit : Suit) → IsOfCards (word_in suits.now suit) }
    ensures { result ≡ hand_word suits.now }
{
    let [spades, hearts, diamonds, clubs] = *suits;
    let minors = u64::from(diamonds / 4) + SUIT * u64::from(clubs / 4);
    u64::from(spades / 4) + SUIT * (u64::from(hearts / 4) + SUIT * minors)
}

/// Returns each hand as one word.
pub(crate) fn words_of(hands: &Hands) -> [u64; 4]
    requires { AreOfCards hands.now }
    ensures { result ≡ words_of hands.now }
{
    let [north, east, south, west] = hands;
    [word_of(north), word_of(east), word_of(south), word_of(west)]
}

/// Returns how many cards are in the hands.
pub(crate) fn count_of(words: &[u64; 4]) -> u32
    ensures { result ≡ cards_in words.now }
{
    words[0].count_ones() + words[1].count_ones() + words[2].count_ones() + words[3].count_ones()
}

/// Returns the first fault that the sizes of four hands have.
fn fault_of_sizes(words: &[u64; 4]) -> Option<HandsFault>
    ensures { MatchOption result (HaveSizes words.now) (IsSizesFault words.now) }
{
    let north = words[0].count_ones();
    let east = words[1].count_ones();
    let south = words[2].count_ones();
    let west = words[3].count_ones();
    let cards = count_of(words);
    if cards == 0 {
        Some(HandsFault::NoCards)
    } else if cards > PACK {
        Some(HandsFault::TooManyCards)
    } else if east != north || south != north || west != north {
        Some(HandsFault::Unequal)
    } else {
        None
    }
}

/// Returns the layout that the hands are, or their first fault.
pub(crate) fn layout_of(hands: &Hands) -> Result<Layout, HandsFault>
    ensures { MeetsHands hands.now result }
{
    if !are_of_cards(hands) {
        return Err(HandsFault::StrayBit);
    }
    let words = words_of(hands);
    if let Some(fault) = fault_of_sizes(&words) {
        return Err(fault);
    }
    match Layout::from_hands(words) {
        Ok(layout) => Ok(layout),
        Err(_) => Err(HandsFault::CardTwice),
    }
}
