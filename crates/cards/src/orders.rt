//! The lists of all seats, suits, denominations and ranks, the orders in which they compare, and what `==` says. Each
//! law is a function that does nothing: its contract is the law.

ghost use Rattle.std.specs.Prelude.{◌≡◌, [], ◌∷◌, map};
ghost use Rattle.cards.specs.Orders.{ComparesBy, SaysSame, trump_number};
ghost use Rattle.cards.specs.Pack.{rank_number, suit_number};
ghost use Rattle.cards.specs.Seats.{seat_number, side_number};

use crate::layouts::{Layout, LayoutFault};
use crate::pack::{Card, Rank};
use crate::seats::{Seat, Side};
use crate::suits::{Suit, Trump};

/// The lists have everything once, by rising number, and the ranks by falling number.
pub fn lists_are_in_order()
    ensures seats { map seat_number Seat.ALL ≡ 0 ∷ 1 ∷ 2 ∷ 3 ∷ [] }
    ensures suits { map suit_number Suit.ALL ≡ 0 ∷ 1 ∷ 2 ∷ 3 ∷ [] }
    ensures trumps { map trump_number Trump.ALL ≡ 0 ∷ 1 ∷ 2 ∷ 3 ∷ 4 ∷ [] }
    ensures ranks { map rank_number Rank.FALLING ≡ 12 ∷ 11 ∷ 10 ∷ 9 ∷ 8 ∷ 7 ∷ 6 ∷ 5 ∷ 4 ∷ 3 ∷ 2 ∷ 1 ∷ 0 ∷ [] }
{}

/// Seats, sides, suits, denominations and ranks compare as their numbers do.
pub fn compare_by_number()
    ensures seats { ComparesBy seat_number ⟦<Seat as Ord>⟧.cmp }
    ensures sides { ComparesBy side_number ⟦<Side as Ord>⟧.cmp }
    ensures suits { ComparesBy suit_number ⟦<Suit as Ord>⟧.cmp }
    ensures trumps { ComparesBy trump_number ⟦<Trump as Ord>⟧.cmp }
    ensures ranks { ComparesBy rank_number ⟦<Rank as Ord>⟧.cmp }
{}

/// `==` of two seats, sides, suits, denominations, ranks, cards, layouts or faults says whether they are the same.
pub fn equals_are_one()
    ensures seats { SaysSame ⟦<Seat as PartialEq>⟧.eq }
    ensures sides { SaysSame ⟦<Side as PartialEq>⟧.eq }
    ensures suits { SaysSame ⟦<Suit as PartialEq>⟧.eq }
    ensures trumps { SaysSame ⟦<Trump as PartialEq>⟧.eq }
    ensures ranks { SaysSame ⟦<Rank as PartialEq>⟧.eq }
    ensures cards { SaysSame ⟦<Card as PartialEq>⟧.eq }
    ensures layouts { SaysSame ⟦<Layout as PartialEq>⟧.eq }
    ensures faults { SaysSame ⟦<LayoutFault as PartialEq>⟧.eq }
{}
