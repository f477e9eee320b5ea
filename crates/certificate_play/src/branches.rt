//! The branch by which a card of the opponents goes on.

ghost use Rattle.std.specs.Prelude.{MatchOption};
ghost use Rattle.pattern_step.specs.declared.pat_cards.PatCard.TheVariants.{Top};
ghost use Rattle.checker.specs.Places.{HasBranch, HasBranchOf};
ghost use Rattle.checker.specs.Steps.{HasHigher};
ghost use Rattle.certificate_play.specs.Branches.{GoesAsHigher, GoesBy};

use cards::{Seat, Suit};
use certificate_graph::{Branches, Place};
use pattern_step::{PatCard, is_legal};
use patterns::Pattern;

/// The place below the branch of this card, if there is one.
pub(crate) fn below<'a>(branches: &Branches<'a>, card: PatCard) -> Option<Place<'a>>
    ensures { MatchOption result (HasBranchOf branches.now card → ⊥) (HasBranch branches.now card) }
{
    match branches.split_first() {
        None => None,
        Some((first, place, rest)) => {
            if first == card {
                Some(place)
            } else {
                below(&rest, card)
            }
        }
    }
}

/// A higher card than the top in this place, in a run of the seat, that has a branch, and the place below that; if
/// there is one.
fn below_higher<'a>(
    pattern: &Pattern,
    seat: Seat,
    branches: &Branches<'a>,
    suit: Suit,
    place: u8,
) -> Option<(PatCard, Place<'a>)>
    ensures { MatchOption result
        (HasHigher pattern.now seat branches.now (Top suit place) → ⊥)
        (λ found. GoesAsHigher pattern.now seat branches.now (Top suit place) found.0 found.1) }
{
    if place == 0 || !is_legal(pattern, seat, None, PatCard::Top(suit, place)) {
        return None;
    }
    let above = PatCard::Top(suit, place - 1);
    if !is_legal(pattern, seat, None, above) {
        return None;
    }
    match below(branches, above) {
        Some(found) => Some((above, found)),
        None => below_higher(pattern, seat, branches, suit, place - 1),
    }
}

/// The branch by which a card of the seat goes, and the place below it: its own branch or that of a higher card in its
/// run, if there is one.
pub(crate) fn below_answer<'a>(
    pattern: &Pattern,
    seat: Seat,
    branches: &Branches<'a>,
    card: PatCard,
) -> Option<(PatCard, Place<'a>)>
    ensures { MatchOption result
        ((HasBranchOf branches.now card → ⊥) × (HasHigher pattern.now seat branches.now card → ⊥))
        (λ found. GoesBy pattern.now seat branches.now card found.0 found.1) }
{
    if let Some(found) = below(branches, card) {
        return Some((card, found));
    }
    match card {
        PatCard::Top(suit, place) => below_higher(pattern, seat, branches, suit, place),
        PatCard::Low(_) => None,
    }
}
