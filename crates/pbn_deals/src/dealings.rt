//! The cards that the hands of a Deal value name, as they are read.

ghost use Rattle.std.specs.Prelude.{◌≡◌, ◌||◌, List, [], ◌∷◌, ◌++◌, false};
ghost use Rattle.std.specs.List.{slice_split};
ghost use Rattle.pbn_deals.specs.DealValue.{is_unknown, hand_cards, groups_cards, suits_in_order};
ghost use Rattle.pbn_deals.specs.Letters.{is_dot};

use crate::hands::is_unknown;
use crate::letters::rank_of_letter;
use cards::{Card, Seat, Suit};

/// The cards that the hands of a Deal value name, in words of bits. The hands may be of any sizes.
#[derive(Clone, Copy)]
pub struct Dealing {
    /// The hands of North, East, South and West, by the cards' numbers.
    pub hands: [u64; 4],
    /// Whether a card was named twice.
    pub is_twice: bool,
    /// Whether a hand is not known.
    pub is_partial: bool,
}

impl Dealing {
    ghost use Rattle.pbn_deals.specs.Dealing.{Holding, held_by};
    ghost use Rattle.pbn_deals.specs.Words.{Represents, ReadsHand};

    /// No card is named.
    pub(crate) fn new() -> Dealing
        ensures none { Represents result [] }
        ensures whole { result.is_partial ≡ false }
    {
        Dealing {
            hands: [0; 4],
            is_twice: false,
            is_partial: false,
        }
    }

    /// Names one card more.
    fn add_card(&mut self, seat: Seat, card: Card)
        ensures adds { (held : List Holding) → Represents self.old held
            → Represents self.new (held ++ held_by seat card ∷ []) }
        ensures partial { self.new.is_partial ≡ self.old.is_partial }
    {
        let [north, east, south, west] = self.hands;
        let bit = 1u64 << card.number();
        self.is_twice |= (north | east | south | west) & bit != 0;
        self.hands[seat.number()] |= bit;
    }

    /// Names the cards of the four groups of a hand, spades first. `false` says that they are not of the form.
    fn add_groups(&mut self, seat: Seat, word: &[u8]) -> bool
        ensures reads { ReadsHand result
            (groups_cards suits_in_order (slice_split is_dot word.now)) seat self.old self.new }
        ensures partial { self.new.is_partial ≡ self.old.is_partial }
    {
        let mut suit = 0;
        for byte in word {
            if *byte == b'.' {
                if suit == 3 {
                    return false;
                }
                suit += 1;
            } else {
                let Some(rank) = rank_of_letter(*byte) else {
                    return false;
                };
                self.add_card(
                    seat,
                    Card {
                        suit: Suit::at(suit),
                        rank,
                    },
                );
            }
        }
        suit == 3
    }

    /// Names the cards of a hand. `false` says that it is not of the form.
    pub(crate) fn add_hand(&mut self, seat: Seat, word: &[u8]) -> bool
        ensures reads { ReadsHand result (hand_cards word.now) seat self.old self.new }
        ensures partial { self.new.is_partial ≡ (self.old.is_partial || is_unknown word.now) }
    {
        if is_unknown(word) {
            self.is_partial = true;
            return true;
        }
        self.add_groups(seat, word)
    }
}
