//! Claims, as they are looked for.

ghost use Rattle.std.specs.Prelude.{IfOk};
ghost use Rattle.play_evidence.specs.Sections.{AreKept, IsKeptClaim, IsNumbers};
ghost use Rattle.play_evidence.specs.SectionTexts.{numbers_line, claim_text, claims_text, counted_text};
ghost use Rattle.play_evidence.specs.Readings.{AddsAll, Finds, FindsAll, FindsWords, SaysWords};

use crate::number_finding::{find_count, root_of};
use cards::OutOfMemory;
use certificate_graph::after_prefix;
use evidence::{cut_at, tricks_of};
use play_claims::PlayClaim;
use std::alloc::Global;

/// The words of a claim.
#[derive(Clone, Copy)]
pub(crate) struct ClaimWords<'a> {
    tricks: &'a [u8],
    ns: &'a [u8],
    ew: &'a [u8],
}

/// Returns the words of a claim, and the rest of the text.
fn find_words(text: &[u8]) -> Option<(ClaimWords<'_>, &[u8])>
    ensures { FindsWords text.now result }
{
    let Some((tricks, rest)) = cut_at(text, b' ') else {
        return None;
    };
    let Some((ns, rest)) = cut_at(rest, b' ') else {
        return None;
    };
    let Some((ew, rest)) = cut_at(rest, b'\n') else {
        return None;
    };
    Some((ClaimWords { tricks, ns, ew }, rest))
}

/// Returns the claim that words say.
fn claim_of(words: ClaimWords<'_>) -> Option<PlayClaim>
    ensures { SaysWords words.entry result }
{
    let Some(tricks) = tricks_of(words.tricks) else {
        return None;
    };
    let Some(ns) = root_of(words.ns) else {
        return None;
    };
    let Some(ew) = root_of(words.ew) else {
        return None;
    };
    Some(PlayClaim { tricks, ns, ew })
}

/// Returns the numbers of a claim, and the rest of the text.
fn find_numbers(text: &[u8]) -> Option<(PlayClaim, &[u8])>
    ensures { Finds IsNumbers numbers_line text.now result }
{
    let Some((words, rest)) = find_words(text) else {
        return None;
    };
    let Some(claim) = claim_of(words) else {
        return None;
    };
    Some((claim, rest))
}

/// Returns the claim, and the rest of the text.
fn find_claim(text: &[u8]) -> Option<(Option<PlayClaim>, &[u8])>
    ensures { Finds IsKeptClaim claim_text text.now result }
{
    if let Some(rest) = after_prefix(text, b"-\n") {
        return Some((None, rest));
    }
    match find_numbers(text) {
        Some((claim, rest)) => Some((Some(claim), rest)),
        None => None,
    }
}

/// Adds this many claims, and returns the rest of the text.
fn push_claims<'a>(
    count: u8,
    text: &'a [u8],
    claims: &mut Vec<Option<PlayClaim>>,
) -> Result<Option<&'a [u8]>, OutOfMemory>
    ensures { IfOk result (AddsAll IsKeptClaim claims_text count text.now claims.old.items claims.new.items) }
{
    if count == 0 {
        return Ok(Some(text));
    }
    let Some((claim, rest)) = find_claim(text) else {
        return Ok(None);
    };
    claims.push(claim)?;
    push_claims(count - 1, rest, claims)
}

/// Returns the claims after their number, and the rest of the text.
pub(crate) fn find_claims(
    alloc: Global,
    text: &[u8],
) -> Result<Option<(Vec<Option<PlayClaim>>, &[u8])>, OutOfMemory>
    ensures { IfOk result (FindsAll (AreKept IsKeptClaim) counted_text text.now) }
{
    let Some((count, rest)) = find_count(text, b"claims ") else {
        return Ok(None);
    };
    let mut claims = Vec::new(alloc);
    let Some(rest) = push_claims(count, rest, &mut claims)? else {
        return Ok(None);
    };
    Ok(Some((claims, rest)))
}
