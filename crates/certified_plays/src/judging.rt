//! The judgement of claims for a recorded play.

ghost use Rattle.std.specs.Prelude.{◌≡◌, ◌≤◌, MatchResult, length};
ghost use Rattle.std.specs.Option.{option_flatten};
ghost use Rattle.play_values.specs.PlayValues.{first_cards};
ghost use Rattle.play_values.specs.Rests.{IsRestAfter};
ghost use Rattle.certified_plays.specs.Judging.{IsShownClaim, IsClaimFault, IsJudged, claim_after, tricks_of_side};
ghost use Rattle.certified_plays.specs.Values.{AreJudged};

use crate::faults::{PlayEntry, ValueFault};
use crate::proofs::PlayProofs;
use crate::values::PlayValues;
use arrayvec::ArrayVec;
use card_values::BegunClaim;
use cards::Side;
use play_claims::PlayClaim;
use play_values::{RecordedPlay, Rest};

/// Checks that the claim is shown after the first `count` cards, otherwise returns a fault that it has.
fn check_claim(
    proofs: &PlayProofs<'_>,
    play: &RecordedPlay,
    rest: &Rest,
    count: usize,
    claim: PlayClaim,
) -> Result<(), ValueFault>
    requires within { count ≤ length play.now.position.history }
    requires rest { IsRestAfter play.now.position.opening (first_cards play.now count) rest.now }
    ensures { MatchResult result
        (λ _. IsShownClaim proofs.now play.now.position.opening (first_cards play.now count) claim)
        (IsClaimFault proofs.now play.now.position.opening (first_cards play.now count) claim) }
{
    let size = play.layout().len() as u8;
    if claim.tricks > size {
        return Err(ValueFault::TricksTooLarge);
    }
    let north_south = BegunClaim {
        layout: &rest.layout,
        leader: rest.leader,
        trump: play.trump(),
        cards: &play.cards()[count - count % 4..count],
        side: Side::NorthSouth,
        need: claim.tricks.saturating_sub(rest.north_south),
    };
    if let Err(fault) = proofs.check(&north_south, claim.ns) {
        return Err(ValueFault::NorthSouth(fault));
    }
    let east_west = BegunClaim {
        side: Side::EastWest,
        need: (size - claim.tricks).saturating_sub(rest.east_west),
        ..north_south
    };
    match proofs.check(&east_west, claim.ew) {
        Ok(()) => Ok(()),
        Err(fault) => Err(ValueFault::EastWest(fault)),
    }
}

/// Returns the claim after this many cards, if there is one.
fn claim_after(claims: &[Option<PlayClaim>], count: usize) -> Option<PlayClaim>
    ensures { result ≡ claim_after claims.now count }
{
    match claims.get(count) {
        Some(claim) => *claim,
        None => None,
    }
}

/// Returns the tricks of a side, if North and South take this many.
fn tricks_of(side: Side, size: u8, tricks: u8) -> u8
    requires { tricks ≤ size }
    ensures { result ≡ tricks_of_side side size tricks }
{
    match side {
        Side::NorthSouth => tricks,
        Side::EastWest => size - tricks,
    }
}

/// Returns the value after the first `count` cards of a play, if the claim for them is shown, otherwise a fault. After
/// the last card of a layout it is the number of tricks won.
fn check_value(
    proofs: &PlayProofs<'_>,
    claims: &[Option<PlayClaim>],
    play: &RecordedPlay,
    count: usize,
) -> PlayEntry
    requires { count ≤ length play.now.position.history }
    ensures { IsJudged proofs.now claims.now play.now count result }
{
    proofs.ns_graph.graph().invariant();
    proofs.ew_graph.graph().invariant();
    play.invariant();
    let Some(rest) = play.rest_after(count) else {
        return PlayEntry::Known(play.table().tricks(play.declarers()));
    };
    let Some(claim) = claim_after(claims, count) else {
        return PlayEntry::Unknown(ValueFault::ClaimMissing);
    };
    match check_claim(proofs, play, &rest, count, claim) {
        Ok(()) => PlayEntry::Known(tricks_of(
            play.declarers(),
            play.layout().len() as u8,
            claim.tricks,
        )),
        Err(fault) => PlayEntry::Unknown(fault),
    }
}

/// Returns what a play is worth after each of its cards. A number is known if its claim is shown: both sides' graphs
/// are right, and the nodes that it names are right beside them after the cards of the trick in progress. Otherwise the
/// entry has a fault of the claim. Takes no memory.
pub fn judge_play(
    proofs: &PlayProofs<'_>,
    claims: &[Option<PlayClaim>],
    play: RecordedPlay,
) -> PlayValues
    ensures { AreJudged proofs.now claims.now play result }
{
    play.invariant();
    let mut entries = ArrayVec::new();
    for count in 0..play.cards().len() + 1 {
        entries.push(check_value(proofs, claims, &play, count));
    }
    PlayValues::new(play, entries)
}
