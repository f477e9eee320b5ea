//! The layout of the cards.

ghost use Rattle.std.specs.Prelude.{◌≡◌, ◌==◌, ◌<◌, ◌^◌, ◌↔◌, IsTrue, MatchBool, Some};
ghost use Rattle.std.specs.Int.{bit_at};
ghost use Rattle.cards.specs.Deal.{IsLayout, holder_of, size_of};
ghost use Rattle.cards.specs.FromHands.{MeetsHands};
ghost use Rattle.cards.specs.declared.pack.Rank.{Rank};
ghost use Rattle.cards.specs.Pack.{card_of, rank_number};
ghost use Rattle.cards.specs.Hands.{AreSized, AreMissized, holder_by_words};

use crate::pack::{Card, Rank};
use crate::seats::Seat;
use crate::suits::Suit;
use std::marker::Model;
use thiserror::Error;

/// The bits of one suit in a word, shifted to its end.
const SUIT: u64 = 0x1fff;

/// How many cards a hand has at the most (Law 1).
const LARGEST: u32 = 13;

/// Why four words are no layout: the first that applies.
#[derive(Clone, Copy, Debug, PartialEq, Eq, Error)]
pub enum LayoutFault {
    /// A word has a bit from 52 up.
    #[error("a bit stands for no card")]
    StrayBit,
    /// Two words have the same card.
    #[error("a card is in two hands")]
    CardTwice,
    /// The hands are of unequal size, or empty, or of over 13 cards.
    #[error("the hands are not of one size from 1 to 13")]
    HandSize,
}

/// Four hands of equally many cards, 1 to 13, no card twice.
#[derive(Clone, Copy, Debug)]
pub struct Layout {
    hands: [u64; 4],
}

impl Model for Layout {
    ghost use Rattle.cards.specs.Deal.{Deal};
    ghost use Rattle.cards.specs.Hands.{deal_of_words, words_of_deal, IsDealt};

    ghost Value = { Deal };

    ghost view = { λ layout. deal_of_words layout.hands };

    ghost invariant = { λ layout. IsDealt layout.hands };

    ghost inverse = { λ deal. record { hands = words_of_deal deal } };

    ghost use Rattle.cards.specs.SameDeal.{words_of_deal_of_words};
    ghost use Rattle.std.proofs.Common.{ap};

    ghost inverse_ok = { λ layout dealt. ap (λ hands. record { hands = hands })
        (words_of_deal_of_words layout.hands dealt) };
}

impl PartialEq for Layout {
    ghost use Rattle.cards.specs.Deal.{is_same_deal};
    ghost use Rattle.cards.specs.SameDeal.{is_same_deal-laws};

    ghost eq = { is_same_deal };

    ghost laws = { is_same_deal-laws };

    fn eq(&self, other: &Layout) -> bool {
        self.hands == other.hands
    }
}

impl Eq for Layout {
    ghost use Rattle.cards.specs.SameDeal.{is_same_deal-equivalence};

    ghost laws = { is_same_deal-equivalence };
}

impl Layout {
    /// The layout of four hands, for North, East, South and West. The card of suit s and rank r, in their
    /// numbers, is bit 13·s + r of its holder's word.
    pub fn from_hands(hands: [u64; 4]) -> Result<Layout, LayoutFault>
        ensures cases { MeetsHands hands result }
    {
        let [north, east, south, west] = hands;
        if (north | east | south | west) >> Card::COUNT != 0 {
            return Err(LayoutFault::StrayBit);
        }
        let shared = north & east
            | north & south
            | north & west
            | east & south
            | east & west
            | south & west;
        if shared != 0 {
            return Err(LayoutFault::CardTwice);
        }
        if !are_sized(&hands) {
            return Err(LayoutFault::HandSize);
        }
        Ok(Layout { hands })
    }

    /// Whether the seat holds the card.
    pub fn holds(&self, seat: Seat, card: Card) -> bool
        ensures { IsTrue result ↔ (holder_of self.now card ≡ Some seat) }
    {
        has_bit(self.hands[seat.number()], card.number())
    }

    /// Who holds the card, if anybody does.
    pub fn owner(&self, card: Card) -> Option<Seat>
        ensures { result ≡ holder_of self.now card }
    {
        holder_by_words(&self.hands, card.number())
    }

    /// The seat's cards of a suit, as bits: bit r is 1 where it holds the card with r ranks below it.
    pub fn holding(&self, seat: Seat, suit: Suit) -> u16
        ensures below { result < 2 ^ 13 }
        ensures bits { (rank : Rank) → (bit_at result (rank_number rank) ≡ 1)
            ↔ (holder_of self.now (card_of suit rank) ≡ Some seat) }
    {
        (self.hands[seat.number()] >> (Rank::COUNT * suit.number()) & SUIT) as u16
    }

    /// What every layout keeps, for a caller that needs the fact. It does nothing.
    pub fn invariant(&self)
        ensures { IsLayout self.now }
    {
        let _hands = &self.hands;
    }

    /// How many cards each hand has, 1 to 13.
    pub fn len(&self) -> usize
        ensures size { result ≡ size_of self.now }
        ensures layout { IsLayout self.now }
    {
        self.hands[0].count_ones() as usize
    }
}

/// Whether the word has the bit.
fn has_bit(word: u64, number: usize) -> bool
    requires { number < 64 }
    ensures { result ≡ (bit_at word number == 1) }
{
    word >> number & 1 == 1
}

/// The seat whose word has the bit, of words for North, East, South and West, if one has it.
pub fn holder_by_words(words: &[u64; 4], place: usize) -> Option<Seat>
    requires { place < 64 }
    ensures { result ≡ holder_by_words words.now place }
{
    if has_bit(words[0], place) {
        return Some(Seat::North);
    }
    if has_bit(words[1], place) {
        return Some(Seat::East);
    }
    if has_bit(words[2], place) {
        return Some(Seat::South);
    }
    if has_bit(words[3], place) {
        return Some(Seat::West);
    }
    None
}

/// Whether the four words name equally many cards, 1 to 13.
fn are_sized(hands: &[u64; 4]) -> bool
    ensures { MatchBool result (AreSized hands.now) (AreMissized hands.now) }
{
    let size = hands[0].count_ones();
    size != 0
        && size <= LARGEST
        && hands[1].count_ones() == size
        && hands[2].count_ones() == size
        && hands[3].count_ones() == size
}
