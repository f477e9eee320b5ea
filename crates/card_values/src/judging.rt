//! The judgement of claims for all cards that may be played.

ghost use Rattle.std.specs.Prelude.{◌≡◌, ◌≤◌, ◌++◌, ◌∷◌, [], MatchResult, All, IfSome, length};
ghost use Rattle.std.specs.Option.{option_copied};
ghost use Rattle.play_rules.specs.Legal.{CanPlay};
ghost use Rattle.card_values.specs.Judging.{IsShownClaim, IsClaimFault, IsClaimed, IsCardFault, claim_for};
ghost use Rattle.card_values.specs.Judging.{IsValueOf};

use crate::after_claims::{BegunClaim, check_after};
use crate::claims::{CardGraphs, graph_in};
use crate::faults::CardFault;
use crate::tricks::TrickInProgress;
use crate::values::{CardValue, CardValues};
use arrayvec::ArrayVec;
use cards::Card;
use certificate_graph::CardClaim;

/// Returns the first claim for a card, if there is one.
pub fn claim_for(claims: &[CardClaim], card: Card) -> Option<&CardClaim>
    ensures { option_copied result ≡ claim_for claims.now card }
{
    claims
        .iter()
        .find(|claim| claim.card.number() == card.number())
}

/// Returns the cards played, and one more after them.
pub fn with_card(played: &[Card], card: Card) -> ArrayVec<Card, 4>
    requires { length played.now ≤ 3 }
    ensures { result.items ≡ played.now ++ card ∷ [] }
{
    let mut cards = ArrayVec::new();
    for one in played {
        cards.push(*one);
    }
    cards.push(card);
    cards
}

/// Checks that the claim is shown, otherwise returns a fault that it has.
fn check_claim(
    trick: &TrickInProgress,
    graphs: &CardGraphs<'_>,
    claim: &CardClaim,
) -> Result<(), CardFault>
    ensures { MatchResult result
        (λ _. IsShownClaim trick.now graphs.now claim.now)
        (IsClaimFault trick.now graphs.now claim.now) }
{
    let size = trick.layout().len() as u8;
    if claim.tricks > size {
        return Err(CardFault::TricksTooLarge(claim.card));
    }
    let cards = with_card(trick.played(), claim.card);
    let side = trick.turn().side();
    let player = BegunClaim {
        layout: trick.layout(),
        leader: trick.leader(),
        trump: trick.trump(),
        cards: cards.as_slice(),
        side,
        need: claim.tricks,
    };
    if let Err(fault) = check_after(&player, graph_in(graphs, side), claim.player.as_ref()) {
        return Err(CardFault::Player(claim.card, fault));
    }
    let others = BegunClaim {
        side: side.other(),
        need: size - claim.tricks,
        ..player
    };
    if let Err(fault) = check_after(
        &others,
        graph_in(graphs, side.other()),
        claim.others.as_ref(),
    ) {
        return Err(CardFault::Others(claim.card, fault));
    }
    Ok(())
}

/// Returns the value of a card that may be played, if its first claim is shown, otherwise a fault.
fn check_card(
    trick: &TrickInProgress,
    graphs: &CardGraphs<'_>,
    claims: &[CardClaim],
    card: Card,
) -> Result<CardValue, CardFault>
    requires { CanPlay trick.now.opening trick.now.history card }
    ensures { MatchResult result
        (IsValueOf trick.now graphs.now claims.now card)
        (IsCardFault trick.now graphs.now claims.now) }
{
    graphs.ns.graph().invariant();
    graphs.ew.graph().invariant();
    trick.invariant();
    let Some(claim) = claim_for(claims, card) else {
        return Err(CardFault::ClaimMissing(card));
    };
    match check_claim(trick, graphs, claim) {
        Ok(()) => Ok(CardValue {
            card,
            tricks: claim.tricks,
        }),
        Err(fault) => Err(fault),
    }
}

/// Returns the values of all cards that may be played, if the first claim for each is shown: both sides' graphs are
/// right, and its begun nodes are right beside them after the cards played. Otherwise it returns a fault that one of
/// these claims has, or a card without a claim. Takes no memory.
pub fn judge_cards(
    trick: TrickInProgress,
    graphs: &CardGraphs<'_>,
    claims: &[CardClaim],
) -> Result<CardValues, CardFault>
    ensures { MatchResult result
        (λ shown. (shown.position ≡ trick) × All (IsClaimed trick graphs.now claims.now) shown.values)
        (IsCardFault trick graphs.now claims.now) }
{
    let cards = trick.legal();
    let mut values = ArrayVec::new();
    for card in cards.as_slice() {
        match check_card(&trick, graphs, claims, *card) {
            Ok(value) => values.push(value),
            Err(fault) => return Err(fault),
        }
    }
    Ok(CardValues::new(trick, values))
}
