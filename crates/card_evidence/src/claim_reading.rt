//! Claims, as they are read.

ghost use Rattle.std.specs.Prelude.{◌≡◌, ◌≢◌, ◌≤◌, ℕ, List, IfOk, MatchOption};
ghost use Rattle.std.specs.Fmt.{decimal};
ghost use Rattle.certificate_graph.specs.declared.card_claims.CardClaim.{CardClaim};
ghost use Rattle.card_evidence.specs.Sections.{IsBegun, IsKeptClaim, AreKeptClaims};
ghost use Rattle.card_evidence.specs.SectionTexts.{line_text, begun_text, claim_text, counted_text};
ghost use Rattle.card_evidence.specs.Readings.{ReadsForm, AddsOrLacksClaims};

use crate::card_reading::read_card;
use crate::lines::read_line;
use crate::numbers::number_of;
use cards::OutOfMemory;
use certificate_graph::{CardClaim, Node, after_prefix};
use std::alloc::Global;

/// Returns the number up to 13 of the line of this name, and the rest of the text.
fn read_number<'a>(text: &'a [u8], name: &[u8]) -> Option<(u8, &'a [u8])>
    ensures { ReadsForm (λ number. number ≤ 13) (λ number. line_text name.now (decimal number)) text.now result }
{
    let Some((word, rest)) = read_line(text, name) else {
        return None;
    };
    let Some(number) = number_of(word) else {
        return None;
    };
    Some((number, rest))
}

/// Returns the begun node, or none, at the beginning of the text, and the rest of the text.
fn read_begun(alloc: Global, text: &[u8]) -> Result<Option<(Option<Node>, &[u8])>, OutOfMemory>
    ensures { IfOk result (ReadsForm IsBegun begun_text text.now) }
{
    if let Some(rest) = after_prefix(text, b"-\n") {
        return Ok(Some((None, rest)));
    }
    match Node::read_line(alloc, text)? {
        Some((node, rest)) => Ok(Some((Some(node), rest))),
        None => Ok(None),
    }
}

/// Returns the claim at the beginning of the text, and the rest of the text.
fn read_claim(alloc: Global, text: &[u8]) -> Result<Option<(CardClaim, &[u8])>, OutOfMemory>
    ensures { IfOk result (ReadsForm IsKeptClaim claim_text text.now) }
{
    let Some((card, rest)) = read_card(text) else {
        return Ok(None);
    };
    let Some((tricks, rest)) = read_number(rest, b" ") else {
        return Ok(None);
    };
    let Some((player, rest)) = read_begun(alloc, rest)? else {
        return Ok(None);
    };
    let Some((others, rest)) = read_begun(alloc, rest)? else {
        return Ok(None);
    };
    let claim = CardClaim {
        card,
        tricks,
        player,
        others,
    };
    Ok(Some((claim, rest)))
}

/// Adds this many claims, and returns the rest of the text.
fn push_claims<'a>(
    alloc: Global,
    count: u8,
    text: &'a [u8],
    claims: &mut Vec<CardClaim>,
) -> Result<Option<&'a [u8]>, OutOfMemory>
    ensures { IfOk result (AddsOrLacksClaims count text.now claims.old.items claims.new.items) }
{
    if count == 0 {
        return Ok(Some(text));
    }
    let Some((claim, rest)) = read_claim(alloc, text)? else {
        return Ok(None);
    };
    claims.push(claim)?;
    push_claims(alloc, count - 1, rest, claims)
}

/// Returns the claims whose number and texts are at the beginning of the text, and the rest of the text.
pub(crate) fn read_claims(
    alloc: Global,
    text: &[u8],
) -> Result<Option<(Vec<CardClaim>, &[u8])>, OutOfMemory>
    ensures { IfOk result (λ read. MatchOption read
        ((claims : List CardClaim) (rest : List ℕ) → AreKeptClaims claims → text.now ≢ counted_text claims rest)
        (λ found. AreKeptClaims found.0.items × (text.now ≡ counted_text found.0.items found.1.now))) }
{
    let Some((count, rest)) = read_number(text, b"claims ") else {
        return Ok(None);
    };
    if count == 0 {
        return Ok(None);
    }
    let mut claims = Vec::new(alloc);
    let Some(rest) = push_claims(alloc, count, rest, &mut claims)? else {
        return Ok(None);
    };
    Ok(Some((claims, rest)))
}
