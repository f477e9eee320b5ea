//! The judgement of claims that cards lead to the most tricks.

ghost use Rattle.std.specs.Prelude.{◌≡◌, MatchResult};
ghost use Rattle.card_values.specs.AfterClaims.{ShowsAfter, IsAfterFault};
ghost use Rattle.card_values.specs.Judging.{graph_for, player_claim};
ghost use Rattle.best_cards.specs.Judging.{AreShownCards, AreShownBest, IsBestFault, IsHeldTo};
ghost use Rattle.best_cards.specs.Judging.{IsHoldFault, IsReachFault};

use crate::cards_found::BestCards;
use crate::faults::BestFault;
use arrayvec::ArrayVec;
use card_values::{
    AfterFault, BegunClaim, CardGraphs, CardValue, TrickInProgress, check_after, claim_for,
    graph_in, with_card,
};
use cards::Card;
use certificate_graph::CardClaim;

/// Checks that the claim shows that the side to play takes no more than its tricks, otherwise returns a fault that the
/// claim has.
fn check_held(
    trick: &TrickInProgress,
    graphs: &CardGraphs<'_>,
    claim: &CardClaim,
) -> Result<(), BestFault>
    ensures { MatchResult result
        (λ _. IsHeldTo trick.now graphs.now claim.now)
        (IsHoldFault trick.now graphs.now claim.now) }
{
    let size = trick.layout().len() as u8;
    if claim.tricks > size {
        return Err(BestFault::TricksTooLarge);
    }
    let side = trick.turn().side().other();
    let others = BegunClaim {
        layout: trick.layout(),
        leader: trick.leader(),
        trump: trick.trump(),
        cards: trick.played(),
        side,
        need: size - claim.tricks,
    };
    match check_after(&others, graph_in(graphs, side), claim.others.as_ref()) {
        Ok(()) => Ok(()),
        Err(fault) => Err(BestFault::Others(fault)),
    }
}

/// Checks that the claim shows that the side to play takes this many tricks after the card, otherwise returns a fault
/// that the claim has.
fn check_reached(
    trick: &TrickInProgress,
    graphs: &CardGraphs<'_>,
    claim: &CardClaim,
    card: Card,
    tricks: u8,
) -> Result<(), AfterFault>
    ensures { MatchResult result
        (λ _. ShowsAfter (graph_for graphs.now (player_claim trick.now card tricks))
        (player_claim trick.now card tricks) claim.now.player)
        (IsAfterFault (graph_for graphs.now (player_claim trick.now card tricks))
        (player_claim trick.now card tricks) claim.now.player) }
{
    let cards = with_card(trick.played(), card);
    let side = trick.turn().side();
    let player = BegunClaim {
        layout: trick.layout(),
        leader: trick.leader(),
        trump: trick.trump(),
        cards: cards.as_slice(),
        side,
        need: tricks,
    };
    check_after(&player, graph_in(graphs, side), claim.player.as_ref())
}

/// Returns the cards that may be played and have claims, if each claim shows that the side to play takes this many
/// tricks after its card. Otherwise it returns a fault that one of these claims has.
fn values_of(
    trick: &TrickInProgress,
    graphs: &CardGraphs<'_>,
    claims: &[CardClaim],
    tricks: u8,
) -> Result<ArrayVec<CardValue, 13>, BestFault>
    ensures { MatchResult result
        (λ values. AreShownCards trick.now graphs.now claims.now tricks values.items)
        (IsReachFault trick.now graphs.now claims.now tricks) }
{
    let cards = trick.legal();
    let mut values = ArrayVec::new();
    for card in cards.as_slice() {
        let Some(claim) = claim_for(claims, *card) else {
            continue;
        };
        match check_reached(trick, graphs, claim, *card, tricks) {
            Ok(()) => values.push(CardValue {
                card: *card,
                tricks,
            }),
            Err(fault) => return Err(BestFault::Player(*card, fault)),
        }
    }
    Ok(values)
}

/// Returns the cards that have claims, if these show that they lead to the most tricks: the first claim's others that
/// the side to play takes no more than its tricks, and each card's player that this side takes them after the card.
/// Otherwise it returns a fault that the claims have. Takes no memory.
pub fn judge_best(
    trick: TrickInProgress,
    graphs: &CardGraphs<'_>,
    claims: &[CardClaim],
) -> Result<BestCards, BestFault>
    ensures { MatchResult result
        (λ shown. (shown.position ≡ trick) × AreShownBest trick graphs.now claims.now shown.values)
        (IsBestFault trick graphs.now claims.now) }
{
    graphs.ns.graph().invariant();
    graphs.ew.graph().invariant();
    trick.invariant();
    let Some(first) = claims.first() else {
        return Err(BestFault::NoClaim);
    };
    if let Err(fault) = check_held(&trick, graphs, first) {
        return Err(fault);
    }
    match values_of(&trick, graphs, claims, first.tricks) {
        Ok(values) => {
            if values.is_empty() {
                return Err(BestFault::NoClaim);
            }
            Ok(BestCards::new(trick, values))
        }
        Err(fault) => Err(fault),
    }
}
