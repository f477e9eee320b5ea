//! A section: the evidence of one trick in progress.

ghost use Rattle.std.specs.Prelude.{◌≡◌, ◌↔◌, IsTrue};
ghost use Rattle.std.specs.List.{AllByRecursion};
ghost use Rattle.std.specs.Option.{option_copied};
ghost use Rattle.card_evidence.specs.Sections.{IsBegun, IsKeptClaim, AreKeptClaims, IsCardSection, MakesCardSection};

use card_values::TrickInProgress;
use cards::Side;
use certificate_graph::{CardBundle, CardClaim, Graph, Node};
use evidence::is_graph_of;
use std::marker::Model;

/// The most tricks that a claim can have, and the most claims.
const MOST: usize = 13;

/// A trick in progress, 1 to 13 claims for cards that may come next, and the graphs of both sides that are to show
/// them.
#[derive(Drop)]
pub struct CardSection {
    trick: TrickInProgress,
    bundle: CardBundle,
}

impl Model for CardSection {
    ghost use Rattle.std.specs.Coded.{codes};
    ghost use Rattle.certificate_graph.specs.TreeCodes.{tree_code};
    ghost use Rattle.card_evidence.specs.Sections.{CardSectionShape, IsCardSection, shape_of};

    ghost Value = { CardSectionShape };

    ghost coded = { Prim.hlevel (codes, tree_code) };

    ghost view = { λ section. shape_of section.trick section.bundle };

    ghost invariant = { λ section. IsCardSection (shape_of section.trick section.bundle) };
}

/// Whether there is no begun node, or one that could be of the largest graph.
fn is_begun(node: Option<&Node>) -> bool
    ensures { IsTrue result ↔ IsBegun (option_copied node.entry) }
{
    match node {
        Some(node) => node.fits_largest(),
        None => true,
    }
}

/// Whether a section can have the claim.
fn is_kept_claim(claim: &CardClaim) -> bool
    ensures { IsTrue result ↔ IsKeptClaim claim.now }
{
    claim.tricks as usize <= MOST
        && is_begun(claim.player.as_ref())
        && is_begun(claim.others.as_ref())
}

/// Whether a section can have each of the claims.
fn are_each_kept(claims: &[CardClaim]) -> bool
    ensures { IsTrue result ↔ AllByRecursion IsKeptClaim claims.now }
{
    match claims {
        [] => true,
        [claim, more @ ..] => is_kept_claim(claim) && are_each_kept(more),
    }
}

/// Whether a section can have the claims.
fn are_kept_claims(claims: &[CardClaim]) -> bool
    ensures { IsTrue result ↔ AreKeptClaims claims.now }
{
    !claims.is_empty() && claims.len() <= MOST && are_each_kept(claims)
}

impl CardSection {
    /// Returns the section of these. If they are none, it returns the bundle: there is no claim, or more than 13; a
    /// claim has more than 13 tricks, or a begun node that the largest graph could not have; or a graph has another
    /// trump or is of the other side. Takes no memory.
    pub fn new(trick: TrickInProgress, bundle: CardBundle) -> Result<CardSection, CardBundle>
        ensures { MakesCardSection trick bundle result }
    {
        trick.invariant();
        let trump = trick.trump();
        let is_section = are_kept_claims(bundle.claims.as_slice())
            && is_graph_of(trump, Side::NorthSouth, &bundle.ns)
            && is_graph_of(trump, Side::EastWest, &bundle.ew);
        if !is_section {
            return Err(bundle);
        }
        Ok(CardSection { trick, bundle })
    }

    /// The trick in progress.
    pub fn trick(&self) -> &TrickInProgress
        ensures { result.now ≡ self.now.position }
    {
        &self.trick
    }

    /// The claims. Several may be for one card, and some for cards that may not be played.
    pub fn claims(&self) -> &[CardClaim]
        ensures { result.now ≡ self.now.claims }
    {
        self.bundle.claims.as_slice()
    }

    /// What North and South can win.
    pub fn ns(&self) -> &Graph
        ensures { result.now ≡ self.now.ns }
    {
        &self.bundle.ns
    }

    /// What East and West can win.
    pub fn ew(&self) -> &Graph
        ensures { result.now ≡ self.now.ew }
    {
        &self.bundle.ew
    }

    /// Returns the trick in progress, and the claims and graphs, by value.
    pub fn into_parts(self) -> (TrickInProgress, CardBundle)
        ensures trick { result.0 ≡ self.position }
        ensures claims { result.1.claims.items ≡ self.claims }
        ensures ns { result.1.ns.value ≡ self.ns }
        ensures ew { result.1.ew.value ≡ self.ew }
    {
        let CardSection { trick, bundle } = self;
        (trick, bundle)
    }

    /// What every section keeps. It does nothing.
    pub fn invariant(&self)
        ensures { IsCardSection self.now }
    {
        let _ = &self.bundle;
    }
}
