//! The laws of runs and of `==`. Each is a function that does nothing: its contract is the law.

ghost use Rattle.std.specs.Prelude.{◌≡◌};
ghost use Rattle.std.specs.Bool.{Decides};
ghost use Rattle.pattern_step.specs.declared.pat_cards.PatCard.{PatCard};
ghost use Rattle.pattern_step.specs.SeatSets.{Seats};
ghost use Rattle.pattern_step.specs.Laws.{LinesAreAlike};

use crate::pat_cards::PatCard;
use crate::seat_sets::SeatSet;

/// It does not matter which of several tops that follow one another, all a seat's, that seat plays: four cards and
/// others that are higher in such runs are won by the same seats, as far as may be told, and leave the same.
pub fn lines_are_alike()
    ensures { LinesAreAlike }
{}

/// `==` of two pattern cards says whether they are the same.
pub fn equal_pat_cards_are_one()
    ensures { (one other : PatCard) → Decides (⟦<PatCard as PartialEq>⟧.eq one other) (one ≡ other) }
{}

/// `==` of two sets says whether they have the same seats.
pub fn equal_seat_sets_are_one()
    ensures { (one other : Seats) → Decides (⟦<SeatSet as PartialEq>⟧.eq one other) (one ≡ other) }
{}
