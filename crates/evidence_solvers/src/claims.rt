//! The claims of the sections that were added to a file.

ghost use Rattle.std.specs.Prelude.{◌≡◌, ◌≤◌, true, false, All, Contains, IfSome, List, length};
ghost use Rattle.evidence.specs.Sections.{SectionShape, kept_of};
ghost use Rattle.evidence_solvers.specs.Claims.{AreClaimed, IsClaimed, IsClaimFor, IsClaimedIn, HasClaimFor, number_by, shown_by};

use cards::{Layout, OutOfMemory, Seat, Trump, equals_are_one};
use certificate_graph::Bundle;
use checker::Shown;
use lease_book::{Asked, Event, HandedIn, Reply};

/// A claim of a section that was added to a file.
#[derive(Clone, Copy, Debug)]
pub(crate) struct KeptClaim {
    layout: Layout,
    declarer: Seat,
    trump: Trump,
    k: u8,
}

/// Notes the claim for a declarer, as it is in the section of an answer, if there is one. Fails if memory runs out.
fn note_claim(
    claims: &mut Vec<KeptClaim>,
    layout: &Layout,
    trump: Trump,
    bundle: &Bundle,
    declarer: Seat,
) -> Result<(), OutOfMemory>
    ensures { (sections : List SectionShape) → Contains sections (kept_of layout.now trump bundle.now)
        → All (IsClaimedIn sections) claims.old.items → All (IsClaimedIn sections) claims.new.items }
{
    let Some(claim) = bundle.claim_for(declarer) else {
        return Ok(());
    };
    let kept = KeptClaim {
        layout: *layout,
        declarer: claim.declarer,
        trump,
        k: claim.k,
    };
    match claims.push(kept) {
        Ok(()) => Ok(()),
        Err(_) => Err(OutOfMemory),
    }
}

/// Notes the claims of an answer, as they are in its section, if it has a text. Fails if memory runs out.
pub(crate) fn note_claims(
    is_text: bool,
    claims: &mut Vec<KeptClaim>,
    layout: &Layout,
    trump: Trump,
    bundle: &Bundle,
) -> Result<(), OutOfMemory>
    ensures notes { (sections : List SectionShape) → Contains sections (kept_of layout.now trump bundle.now)
        → All (IsClaimedIn sections) claims.old.items → All (IsClaimedIn sections) claims.new.items }
    ensures none { is_text ≡ false → claims.new.items ≡ claims.old.items }
{
    if !is_text {
        return Ok(());
    }
    for declarer in Seat::ALL {
        note_claim(claims, layout, trump, bundle, declarer)?;
    }
    Ok(())
}

/// The value that was handed in, if a request hands one in.
fn shown_by(asked: &Asked) -> Option<Shown>
    ensures { result ≡ shown_by asked.now }
{
    match asked {
        Asked::HandIn {
            evidence: HandedIn::Shows(shown),
            ..
        } => Some(*shown),
        _ => None,
    }
}

/// The number that a reply publishes, if it publishes one.
fn number_by(reply: Reply) -> Option<u8>
    ensures { result ≡ number_by reply }
{
    match reply {
        Reply::Published(k) => Some(k),
        _ => None,
    }
}

/// Whether a claim is for so many tricks of this deal, declarer and denomination.
fn is_claim_for(claim: &KeptClaim, shown: &Shown, k: u8) -> bool
    ensures { result ≡ true → IsClaimFor shown.now k claim.now }
{
    equals_are_one();
    if claim.k != k {
        return false;
    }
    if claim.declarer != shown.declarer {
        return false;
    }
    if claim.trump != shown.trump {
        return false;
    }
    if claim.layout != shown.layout {
        return false;
    }
    true
}

/// The place of a claim for so many tricks of this deal, declarer and denomination, from one place on and before
/// another.
fn place_within(
    claims: &[KeptClaim],
    begin: usize,
    end: usize,
    shown: &Shown,
    k: u8,
) -> Option<usize>
    requires { end ≤ length claims.now }
    ensures { IfSome result (λ place. HasClaimFor claims.now shown.now k) }
{
    for place in begin..end {
        if is_claim_for(&claims[place], shown, k) {
            return Some(place);
        }
    }
    None
}

/// The place of such a claim, looked for from a place on, and then before it.
fn place_of(claims: &[KeptClaim], near: usize, shown: &Shown, k: u8) -> Option<usize>
    ensures { IfSome result (λ place. HasClaimFor claims.now shown.now k) }
{
    let begin = near.min(claims.len());
    match place_within(claims, begin, claims.len(), shown, k) {
        Some(place) => Some(place),
        None => place_within(claims, 0, begin, shown, k),
    }
}

/// How many claims before the last one that was found the next search begins. Numbers are published nearly in the order
/// in which their claims are noted.
const BACK: usize = 256;

/// Looks for a claim for what an event published, from a place on. Returns where to begin the next search, or `None` if
/// there is no such claim.
fn search_for(claims: &[KeptClaim], near: usize, event: &Event) -> Option<usize>
    ensures { IfSome result (λ next. IsClaimed claims.now event.now) }
{
    let shown = match shown_by(&event.asked) {
        Some(shown) => shown,
        None => return Some(near),
    };
    let k = match number_by(event.reply) {
        Some(k) => k,
        None => return Some(near),
    };
    match place_of(claims, near, &shown, k) {
        Some(place) => Some(place.saturating_sub(BACK)),
        None => None,
    }
}

/// Whether each number that the events published is among the claims.
pub(crate) fn claim_all(claims: &[KeptClaim], events: &[Event]) -> bool
    ensures { result ≡ true → AreClaimed claims.now events.now }
{
    let mut near = 0;
    for event in events {
        match search_for(claims, near, event) {
            Some(next) => near = next,
            None => return false,
        }
    }
    true
}
