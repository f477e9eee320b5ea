//! The turns of a trick: the seat that plays, and the cards that belong there.

ghost use Rattle.std.specs.Prelude.{◌≡◌, ◌<◌, ◌↔◌, IsTrue, MatchBool, MatchResult, Contains, length};
ghost use Rattle.cards.specs.Seats.{seat_in_place};
ghost use Rattle.pattern_step.specs.declared.pat_cards.PatCard.{PatCard};
ghost use Rattle.pattern_step.specs.declared.pat_cards.PatCard.TheVariants.{Top};
ghost use Rattle.checker.specs.Places.{HasBranchOf};
ghost use Rattle.checker.specs.Steps.{player_after, MayComeNext, IsOwnTurn, IsOpponentsTurn, HasHigher, IsAnswered};
ghost use Rattle.checker.specs.Steps.{AreAnswers};
ghost use Rattle.checker.specs.Faults.{HasWrongBranch, IsOwnFault, IsReplyFault};

use crate::card_sets::answer_by_sets;
use crate::faults::StepFault;
use crate::played::Played;
use cards::{Seat, Side, Suit};
use certificate_graph::{Branches, Node, Version};
use pattern_step::{PatCard, is_legal, legal};
use patterns::Pattern;

/// Returns the seat that plays after these cards.
fn player_after(node: &Node, played: &Played) -> Seat
    requires { length played.now < 4 }
    ensures { result ≡ player_after node.now played.now }
{
    Seat::ALL[(node.lead.number() + played.count()) % 4]
}

/// Returns whether the card is legal after these cards.
#[inline(always)]
pub(crate) fn may_come_next(node: &Node, played: &Played, card: PatCard) -> bool
    requires { length played.now < 4 }
    ensures { IsTrue result ↔ MayComeNext node.now played.now card }
{
    is_legal(
        &node.pattern,
        player_after(node, played),
        played.led(),
        card,
    )
}

/// Returns whether the trick goes on and the side plays.
fn is_own_turn(side: Side, node: &Node, played: &Played) -> bool
    ensures { IsTrue result ↔ IsOwnTurn side node.now played.now }
{
    played.count() < 4 && player_after(node, played).side() == side
}

/// Returns whether the trick goes on and the opponents play.
fn is_opponents_turn(side: Side, node: &Node, played: &Played) -> bool
    ensures { IsTrue result ↔ IsOpponentsTurn side node.now played.now }
{
    played.count() < 4 && player_after(node, played).side() != side
}

/// Checks that a card of the side belongs here.
pub(crate) fn check_own(
    side: Side,
    node: &Node,
    played: &Played,
    card: PatCard,
) -> Result<(), StepFault>
    ensures { MatchResult result
        (λ _. IsOwnTurn side node.now played.now × MayComeNext node.now played.now card)
        (IsOwnFault side node.now played.now card) }
{
    if !is_own_turn(side, node, played) {
        return Err(StepFault::TreeShape);
    }
    if !may_come_next(node, played, card) {
        return Err(StepFault::CardNotLegal);
    }
    Ok(())
}

/// Returns whether there is a branch for the card.
fn has_branch(branches: &Branches<'_>, card: PatCard) -> bool
    ensures { IsTrue result ↔ HasBranchOf branches.now card }
{
    match branches.split_first() {
        None => false,
        Some((first, _, rest)) => first == card || has_branch(&rest, card),
    }
}

/// Returns whether there is a branch for a higher card than the top in this place, in a run of the seat.
fn has_higher(pattern: &Pattern, seat: Seat, branches: &Branches<'_>, suit: Suit, place: u8) -> bool
    ensures { IsTrue result ↔ HasHigher pattern.now seat branches.now (Top suit place) }
{
    if place == 0 || !is_legal(pattern, seat, None, PatCard::Top(suit, place)) {
        return false;
    }
    let above = PatCard::Top(suit, place - 1);
    is_legal(pattern, seat, None, above)
        && (has_branch(branches, above) || has_higher(pattern, seat, branches, suit, place - 1))
}

/// Returns whether there is a branch for a higher card than this one, in a run of the seat.
fn is_excused(pattern: &Pattern, seat: Seat, branches: &Branches<'_>, card: PatCard) -> bool
    ensures { IsTrue result ↔ HasHigher pattern.now seat branches.now card }
{
    match card {
        PatCard::Top(suit, place) => has_higher(pattern, seat, branches, suit, place),
        PatCard::Low(_) => false,
    }
}

/// Returns whether the branches answer a card of the seat.
fn is_answered(
    version: Version,
    pattern: &Pattern,
    seat: Seat,
    branches: &Branches<'_>,
    card: PatCard,
) -> bool
    ensures { IsTrue result ↔ IsAnswered version pattern.now seat branches.now card }
{
    if has_branch(branches, card) {
        return true;
    }
    match version {
        Version::One => false,
        Version::Two => is_excused(pattern, seat, branches, card),
    }
}

/// Returns whether the branches answer each of the cards of the seat.
fn are_answered(
    version: Version,
    pattern: &Pattern,
    seat: Seat,
    branches: &Branches<'_>,
    cards: &[PatCard],
) -> bool
    ensures { MatchBool result
        ((card : PatCard) → Contains cards.now card → IsAnswered version pattern.now seat branches.now card)
        ((card : PatCard) × Contains cards.now card × (IsAnswered version pattern.now seat branches.now card → ⊥)) }
{
    for card in cards {
        if !is_answered(version, pattern, seat, branches, *card) {
            return false;
        }
    }
    true
}

/// Returns whether all branches have legal cards.
fn are_legal(node: &Node, played: &Played, branches: &Branches<'_>) -> bool
    requires { length played.now < 4 }
    ensures { MatchBool result
        ((card : PatCard) → HasBranchOf branches.now card → MayComeNext node.now played.now card)
        (HasWrongBranch node.now played.now branches.now) }
{
    match branches.split_first() {
        None => true,
        Some((card, _, rest)) => {
            may_come_next(node, played, card) && are_legal(node, played, &rest)
        }
    }
}

/// Checks that the branches belong here: they answer the legal cards of the opponents, and have no others.
pub(crate) fn check_reply(
    version: Version,
    side: Side,
    node: &Node,
    played: &Played,
    branches: &Branches<'_>,
) -> Result<(), StepFault>
    ensures { MatchResult result
        (λ _. IsOpponentsTurn side node.now played.now × AreAnswers version node.now played.now branches.now)
        (IsReplyFault version side node.now played.now branches.now) }
{
    if !is_opponents_turn(side, node, played) {
        return Err(StepFault::TreeShape);
    }
    let pattern = &node.pattern;
    let seat = player_after(node, played);
    let led = played.led();
    if answer_by_sets(version, pattern, seat, led, branches) {
        return Ok(());
    }
    let cards = legal(pattern, seat, led);
    if !are_answered(version, pattern, seat, branches, cards.as_slice()) {
        return Err(StepFault::BranchMissing);
    }
    if !are_legal(node, played, branches) {
        return Err(StepFault::BranchExtra);
    }
    Ok(())
}
