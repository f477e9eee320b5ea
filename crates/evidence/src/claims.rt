//! Which claims a section can have.

ghost use Rattle.std.specs.Prelude.{◌≡◌, ◌↔◌, ◌++◌, ◌+◌, ◌<◌, ◌≤◌, length, IsTrue};
ghost use Rattle.std.specs.Prelude.{option_to_list};
ghost use Rattle.certificate_graph.specs.Bundles.{claim_for};
ghost use Rattle.evidence.specs.Sections.{IsRoot, IsClaim, AreClaims, claims_in_order};

use arrayvec::ArrayVec;
use cards::Seat;
use certificate_graph::{Bundle, Claim};

/// How many tricks a side wins at the most.
const MOST_TRICKS: u8 = 13;

/// How many nodes a graph has at the most.
const MOST_NODES: u32 = 1_000_000;

/// Whether this can be the number of a node, if there is one.
fn is_root(root: Option<u32>) -> bool
    ensures { IsTrue result ↔ IsRoot root }
{
    match root {
        Some(number) => number < MOST_NODES,
        None => true,
    }
}

/// Whether it claims at most 13 tricks, by nodes that a graph can have.
fn is_claim(claim: &Claim) -> bool
    ensures { IsTrue result ↔ IsClaim claim.now }
{
    claim.k <= MOST_TRICKS && is_root(claim.declarer_root) && is_root(claim.defenders_root)
}

/// Whether the declarers of these claims rise from this number on, and each is a claim that a section can have.
pub(crate) fn are_claims(least: usize, claims: &[Claim]) -> bool
    ensures { IsTrue result ↔ AreClaims least claims.now }
{
    match claims {
        [] => true,
        [claim, more @ ..] => {
            least <= claim.declarer.number()
                && is_claim(claim)
                && are_claims(claim.declarer.number() + 1, more)
        }
    }
}

/// Adds the claim of a bundle for a declarer, if it has one.
fn push_claim(claims: &mut ArrayVec<Claim, 4>, bundle: &Bundle, declarer: Seat)
    requires { length claims.old.items < 4 }
    ensures items { claims.new.items ≡ claims.old.items
        ++ option_to_list (claim_for bundle.now.claims.items declarer) }
    ensures len { length claims.new.items ≤ length claims.old.items + 1 }
{
    if let Some(claim) = bundle.claim_for(declarer) {
        claims.push(claim);
    }
}

/// The first claim of a bundle for each declarer, in the order North, East, South, West, as a section has them.
pub fn claims_in_order(bundle: &Bundle) -> ArrayVec<Claim, 4>
    ensures { result.items ≡ claims_in_order bundle.now.claims.items }
{
    let mut claims = ArrayVec::new();
    push_claim(&mut claims, bundle, Seat::North);
    push_claim(&mut claims, bundle, Seat::East);
    push_claim(&mut claims, bundle, Seat::South);
    push_claim(&mut claims, bundle, Seat::West);
    claims
}
