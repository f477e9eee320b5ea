//! The text of cards: the letters of a suit and of a rank.

ghost use Rattle.std.specs.Prelude.{◌≡◌, ◌∷◌, [], MatchOption};
ghost use Rattle.cards.specs.declared.suits.Suit.{Suit};
ghost use Rattle.cards.specs.declared.pack.Rank.{Rank};
ghost use Rattle.cards.specs.Devices.{Writes};
ghost use Rattle.cards.specs.Pack.{suit_letter, rank_letter};
ghost use Rattle.cards.specs.CardTexts.{card_text, cards_text};

use crate::devices::{DeviceFault, Sink, write_all};
use crate::pack::{Card, Rank};
use crate::suits::Suit;

/// Returns the suit with this letter.
pub fn suit_of(letter: u8) -> Option<Suit>
    ensures { MatchOption result
        ((suit : Suit) → suit_letter suit ≡ letter ∷ [] → ⊥)
        (λ suit. suit_letter suit ≡ letter ∷ []) }
{
    match letter {
        b'S' => Some(Suit::Spades),
        b'H' => Some(Suit::Hearts),
        b'D' => Some(Suit::Diamonds),
        b'C' => Some(Suit::Clubs),
        _ => None,
    }
}

/// Returns the rank with this letter. A ten is `T`.
pub fn rank_of(letter: u8) -> Option<Rank>
    ensures { MatchOption result
        ((rank : Rank) → rank_letter rank ≡ letter ∷ [] → ⊥)
        (λ rank. rank_letter rank ≡ letter ∷ []) }
{
    match letter {
        b'2' => Some(Rank::Two),
        b'3' => Some(Rank::Three),
        b'4' => Some(Rank::Four),
        b'5' => Some(Rank::Five),
        b'6' => Some(Rank::Six),
        b'7' => Some(Rank::Seven),
        b'8' => Some(Rank::Eight),
        b'9' => Some(Rank::Nine),
        b'T' => Some(Rank::Ten),
        b'J' => Some(Rank::Jack),
        b'Q' => Some(Rank::Queen),
        b'K' => Some(Rank::King),
        b'A' => Some(Rank::Ace),
        _ => None,
    }
}

/// Writes the cards, each after a blank. If the sink fails, it has got a beginning of them.
pub fn write_cards<S: Sink>(cards: &[Card], output: &mut S) -> Result<(), DeviceFault>
    ensures { Writes (S.state output.old) (S.state output.new) (cards_text cards.now) result }
{
    for card in cards {
        write_card(*card, output)?;
    }
    Ok(())
}

/// Writes a blank and the letters of the card. After a fault of the sink a beginning of them has gone out.
pub fn write_card<S: Sink>(card: Card, output: &mut S) -> Result<(), DeviceFault>
    ensures { Writes (S.state output.old) (S.state output.new) (32 ∷ card_text card) result }
{
    write_all(output, b" ")?;
    write_all(output, card.suit.letter().as_bytes())?;
    write_all(output, card.rank.letter().as_bytes())
}
