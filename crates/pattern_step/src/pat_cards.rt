//! The cards of a pattern.

ghost use Rattle.std.specs.Prelude.{◌≡◌, ◌↔◌, ℕ, IsTrue, MatchOption};
ghost use Rattle.pattern_step.specs.declared.pat_cards.PatCard.TheVariants.{Top, Low};
ghost use Rattle.cards.specs.declared.suits.Suit.TheVariants.{Spades};
ghost use Rattle.pattern_step.specs.PatCards.{suit_of_card, is_of_suit, is_top};

use cards::Suit;

/// A card of a pattern: one of the suit's highest cards, by its place in the list of owners, from 0 for the
/// highest, or one of the low cards, which have no rank.
#[derive(Clone, Copy, Debug, PartialEq, Eq)]
pub enum PatCard {
    /// The card of the suit in this place of the list of owners, from 0 for the highest.
    Top(Suit, u8),
    /// A card of the suit below all that have an owner.
    Low(Suit),
}

impl Default for PatCard {
    ghost is_default = { λ card. card ≡ Low Spades };

    fn default() -> PatCard {
        PatCard::Low(Suit::Spades)
    }
}

impl PatCard {
    /// The suit of the card.
    pub fn suit(self) -> Suit
        ensures { result ≡ suit_of_card self }
    {
        match self {
            PatCard::Top(suit, _) | PatCard::Low(suit) => suit,
        }
    }

    /// Whether the card is of the suit.
    pub fn is_of(self, suit: Suit) -> bool
        ensures { result ≡ is_of_suit suit self }
    {
        self.suit() == suit
    }

    /// The place of the card where it is a top of the suit.
    pub fn top_of(self, suit: Suit) -> Option<u8>
        ensures { MatchOption result ((place : ℕ) → self ≡ Top suit place → ⊥) (λ place. self ≡ Top suit place) }
    {
        match self {
            PatCard::Top(of, place) if of == suit => Some(place),
            _ => None,
        }
    }

    /// Whether this is the low card of the suit.
    pub fn is_low_of(self, suit: Suit) -> bool
        ensures { IsTrue result ↔ (self ≡ Low suit) }
    {
        self == PatCard::Low(suit)
    }

    /// Whether this is the top in this place of the suit.
    pub fn is_top(self, suit: Suit, place: usize) -> bool
        ensures { result ≡ is_top suit place self }
    {
        match self {
            PatCard::Top(of, other) => of == suit && other as usize == place,
            PatCard::Low(_) => false,
        }
    }
}
