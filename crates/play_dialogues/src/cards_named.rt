//! The names of cards.

ghost use Rattle.std.specs.Prelude.{MatchOption};
ghost use Rattle.cards.specs.declared.pack.Rank.{Rank};
ghost use Rattle.cards.specs.declared.pack.Card.{Card};
ghost use Rattle.play_dialogues.specs.Words.{NamesRank, NamesCard, NamesBySuit, NamesByRank};

use cards::{Card, Rank, rank_of, suit_of};

/// The rank that these letters name.
fn rank_named(letters: &[u8]) -> Option<Rank>
    ensures { MatchOption result
        ((rank : Rank) → NamesRank letters.now rank → ⊥)
        (λ rank. NamesRank letters.now rank) }
{
    match letters {
        [letter] => rank_of(*letter),
        [b'1', b'0'] => Some(Rank::Ten),
        _ => None,
    }
}

/// The card that these letters name by its suit and then its rank.
fn by_suit_first(letters: &[u8]) -> Option<Card>
    ensures { MatchOption result
        ((card : Card) → NamesBySuit letters.now card → ⊥)
        (λ card. NamesBySuit letters.now card) }
{
    let (first, rest) = letters.split_first()?;
    let suit = suit_of(*first)?;
    let rank = rank_named(rest)?;
    Some(Card { suit, rank })
}

/// The card that these letters name by its rank and then its suit.
fn by_rank_first(letters: &[u8]) -> Option<Card>
    ensures { MatchOption result
        ((card : Card) → NamesByRank letters.now card → ⊥)
        (λ card. NamesByRank letters.now card) }
{
    let (last, rest) = letters.split_last()?;
    let suit = suit_of(*last)?;
    let rank = rank_named(rest)?;
    Some(Card { suit, rank })
}

/// The card that these letters name.
pub(crate) fn card_named(letters: &[u8]) -> Option<Card>
    ensures { MatchOption result
        ((card : Card) → NamesCard letters.now card → ⊥)
        (λ card. NamesCard letters.now card) }
{
    match by_suit_first(letters) {
        Some(card) => Some(card),
        None => by_rank_first(letters),
    }
}
