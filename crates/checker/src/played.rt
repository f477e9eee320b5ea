//! The cards of a trick so far.

ghost use Rattle.std.specs.Prelude.{◌≡◌, ◌≢◌, ◌<◌, ◌/◌, ◌%◌, ◌^◌, ◌∷◌, ◌++◌, [], length, MatchOption};
ghost use Rattle.cards.specs.Pack.{suit_at};
ghost use Rattle.pattern_step.specs.Tricks.{suit_led_by};
ghost use Rattle.checker.specs.TrickWords.{card_at};

use cards::Suit;
use pattern_step::PatCard;
use std::marker::Model;

/// How many bits a card has.
const CARD_BITS: usize = 16;

/// Where the suit of a card begins.
const SUIT: u32 = 8;

/// Which bit a low card has.
const LOW: u32 = 10;

/// The bits of the place of a top.
const PLACE: u64 = 0xff;

/// The cards of a trick so far, in the order in which they were played. They are in one word, so that a copy is one
/// move. A copy of an array of cards had to wait for the bytes that were written just before.
#[derive(Drop)]
pub(crate) struct Played {
    word: u64,
    count: usize,
}

impl Model for Played {
    ghost use Rattle.std.specs.Prelude.{◌<◌, ◌≤◌, ◌*◌, ◌^◌, List};
    ghost use Rattle.pattern_step.specs.declared.pat_cards.PatCard.{PatCard};
    ghost use Rattle.checker.specs.TrickWords.{cards_in};

    ghost Value = { List PatCard };

    ghost view = { λ played. cards_in played.count played.word };

    ghost invariant = { λ played. (played.count ≤ 4) × (played.word < 2 ^ (16 * played.count)) };
}

/// Returns the bits of a card.
fn code_of(card: PatCard) -> u64
    ensures below { result < 2 ^ 16 }
    ensures back { card_at result ≡ card }
{
    match card {
        PatCard::Top(suit, place) => u64::from(place) + ((suit.number() as u64) << SUIT),
        PatCard::Low(suit) => (1 << LOW) + ((suit.number() as u64) << SUIT),
    }
}

/// Returns the suit of the card in the lowest bits.
fn suit_at(word: u64) -> Suit
    ensures { result ≡ suit_at (word / 2 ^ 8 % 4) }
{
    match word >> SUIT & 3 {
        0 => Suit::Spades,
        1 => Suit::Hearts,
        2 => Suit::Diamonds,
        _ => Suit::Clubs,
    }
}

/// Returns the card in the lowest bits.
fn card_at(word: u64) -> PatCard
    ensures { result ≡ card_at word }
{
    let suit = suit_at(word);
    if word >> LOW & 1 == 0 {
        PatCard::Top(suit, (word & PLACE) as u8)
    } else {
        PatCard::Low(suit)
    }
}

impl Played {
    /// Makes a trick without cards.
    pub(crate) fn none() -> Played
        ensures { result ≡ [] }
    {
        Played { word: 0, count: 0 }
    }

    /// Returns these cards and one more.
    pub(crate) fn with(&self, card: PatCard) -> Played
        requires { length self.now < 4 }
        ensures { result ≡ self.now ++ card ∷ [] }
    {
        Played {
            word: self.word + (code_of(card) << (CARD_BITS * self.count)),
            count: self.count + 1,
        }
    }

    /// Returns how many cards there are.
    pub(crate) fn count(&self) -> usize
        ensures { result ≡ length self.now }
    {
        self.count
    }

    /// Returns the suit led, if a card was played.
    pub(crate) fn led(&self) -> Option<Suit>
        ensures { result ≡ suit_led_by self.now }
    {
        if self.count == 0 {
            None
        } else {
            Some(suit_at(self.word))
        }
    }

    /// Returns the four cards of a whole trick, if there are four.
    pub(crate) fn whole(&self) -> Option<[PatCard; 4]>
        ensures { MatchOption result (length self.now ≢ 4) (λ cards. (cards ≡ self.now) × (length self.now ≡ 4)) }
    {
        if self.count != 4 {
            return None;
        }
        Some([
            card_at(self.word),
            card_at(self.word >> CARD_BITS),
            card_at(self.word >> (2 * CARD_BITS)),
            card_at(self.word >> (3 * CARD_BITS)),
        ])
    }
}
