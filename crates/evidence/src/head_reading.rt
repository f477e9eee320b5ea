//! What stands before the graphs of a section, as it is read: in whatever spelling. Who reads a section compares it
//! with the one that is written.

ghost use Rattle.std.specs.Prelude.{◌≡◌, ◌≢◌, ◌+◌, ◌≤◌, ◌++◌, ℕ, List, length, MatchOption};
ghost use Rattle.cards.specs.declared.suits.Trump.{Trump};
ghost use Rattle.cards.specs.Deal.{Deal};
ghost use Rattle.pbn_deals.specs.DealText.{deal_text};
ghost use Rattle.certificate_graph.specs.Texts.{trump_text};
ghost use Rattle.certificate_graph.specs.declared.bundles.Claim.{Claim};
ghost use Rattle.evidence.specs.Sections.{SectionShape};
ghost use Rattle.evidence.specs.SectionTexts.{title, deal_line, claim_lines, IsTextOf};
ghost use Rattle.evidence.specs.Readings.{LacksClaim, FindsClaim, NamesNoSeat, AllClaims, IsHeadOf, FindsWords};
ghost use Rattle.evidence.specs.Readings.{LacksWords, SaysWords};

use crate::words::{cut_at, root_of, seat_of, tricks_of, trump_of};
use arrayvec::ArrayVec;
use cards::{Layout, Trump};
use certificate_graph::{Claim, after_prefix};
use pbn_deals::read_layout;

/// What stands before the graphs of a section.
#[derive(Drop)]
pub(crate) struct Head {
    /// The four hands.
    pub(crate) layout: Layout,
    /// The denomination.
    pub(crate) trump: Trump,
    /// The claims.
    pub(crate) claims: ArrayVec<Claim, 4>,
}

/// The words of the line of a claim.
#[derive(Clone, Copy)]
struct ClaimWords<'a> {
    declarer: &'a [u8],
    tricks: &'a [u8],
    declarer_root: &'a [u8],
    defenders_root: &'a [u8],
}

/// The words of the first line, and what stands after it, where three blanks and the end of a line are found.
fn read_words(text: &[u8]) -> Option<(ClaimWords<'_>, &[u8])>
    ensures { MatchOption result (LacksClaim text.now) (λ p. FindsWords text.now p.0 p.1.now) }
{
    let Some((declarer, rest)) = cut_at(text, b' ') else {
        return None;
    };
    let Some((tricks, rest)) = cut_at(rest, b' ') else {
        return None;
    };
    let Some((declarer_root, rest)) = cut_at(rest, b' ') else {
        return None;
    };
    let Some((defenders_root, rest)) = cut_at(rest, b'\n') else {
        return None;
    };
    let words = ClaimWords {
        declarer,
        tricks,
        declarer_root,
        defenders_root,
    };
    Some((words, rest))
}

/// The claim that these words say.
fn claim_of(words: &ClaimWords<'_>) -> Option<Claim>
    ensures { MatchOption result (LacksWords words.now) (λ claim. SaysWords words.now claim) }
{
    let Some(declarer) = seat_of(words.declarer) else {
        return None;
    };
    let Some(k) = tricks_of(words.tricks) else {
        return None;
    };
    let Some(declarer_root) = root_of(words.declarer_root) else {
        return None;
    };
    let Some(defenders_root) = root_of(words.defenders_root) else {
        return None;
    };
    Some(Claim {
        declarer,
        k,
        declarer_root,
        defenders_root,
    })
}

/// A claim, and what stands after its line.
fn read_claim(text: &[u8]) -> Option<(Claim, &[u8])>
    ensures { MatchOption result (LacksClaim text.now) (λ p. FindsClaim text.now p.0 p.1.now) }
{
    let Some((words, rest)) = read_words(text) else {
        return None;
    };
    let Some(claim) = claim_of(&words) else {
        return None;
    };
    Some((claim, rest))
}

/// Adds the claims of the first lines, as many as there are and as there is room for.
fn read_claims(text: &[u8], claims: &mut ArrayVec<Claim, 4>)
    ensures { (more : List Claim) (rest : List ℕ) → AllClaims more → NamesNoSeat rest
        → length claims.old.items + length more ≤ 4 → text.now ≡ claim_lines more rest
        → claims.new.items ≡ claims.old.items ++ more }
{
    if claims.is_full() {
        return;
    }
    let Some((claim, rest)) = read_claim(text) else {
        return;
    };
    claims.push(claim);
    read_claims(rest, claims)
}

/// What stands in the line of the deal, and what stands after it.
fn read_deal(text: &[u8]) -> Option<(&[u8], &[u8])>
    ensures { MatchOption result ((deal : Deal) (rest : List ℕ) → text.now ≢ title ++ deal_line deal rest)
        (λ p. (deal : Deal) (rest : List ℕ) → text.now ≡ title ++ deal_line deal rest
        → (p.0.now ≡ deal_text deal) × (p.1.now ≡ rest)) }
{
    let Some(rest) = after_prefix(text, b"DDE 1\ndeal ") else {
        return None;
    };
    cut_at(rest, b'\n')
}

/// The denomination, and what stands after its line.
fn read_trump(text: &[u8]) -> Option<(Trump, &[u8])>
    ensures { MatchOption result ((trump : Trump) (rest : List ℕ) → text.now ≢ trump_text trump rest)
        (λ p. (trump : Trump) (rest : List ℕ) → text.now ≡ trump_text trump rest
        → (p.0 ≡ trump) × (p.1.now ≡ rest)) }
{
    let Some(rest) = after_prefix(text, b"trump ") else {
        return None;
    };
    let Some((letters, rest)) = cut_at(rest, b'\n') else {
        return None;
    };
    let Some(trump) = trump_of(letters) else {
        return None;
    };
    Some((trump, rest))
}

/// The head of the section whose text it is. Of a text of none it may be any.
pub(crate) fn read_head(text: &[u8]) -> Option<Head>
    ensures { MatchOption result ((section : SectionShape) → IsTextOf text.now section → ⊥)
        (λ head. (section : SectionShape) → IsTextOf text.now section → IsHeadOf head section) }
{
    let Some((value, rest)) = read_deal(text) else {
        return None;
    };
    let Ok(layout) = read_layout(value) else {
        return None;
    };
    let Some((trump, rest)) = read_trump(rest) else {
        return None;
    };
    let Some((_, rest)) = cut_at(rest, b'\n') else {
        return None;
    };
    let mut claims = ArrayVec::new();
    read_claims(rest, &mut claims);
    Some(Head {
        layout,
        trump,
        claims,
    })
}
