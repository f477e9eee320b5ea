//! A section: the evidence of one play.

ghost use Rattle.std.specs.Prelude.{◌≡◌, ◌↔◌, IsTrue};
ghost use Rattle.std.specs.List.{AllByRecursion};
ghost use Rattle.evidence.specs.Sections.{IsRoot};
ghost use Rattle.play_evidence.specs.Sections.{AreKept, AreNodesOf, IsBegun, IsKeptClaim, IsNumbers};
ghost use Rattle.play_evidence.specs.Sections.{IsPlaySection, MakesPlaySection, nodes_of, parts_of, shape_of};

use arrayvec::ArrayVec;
use cards::{Card, Layout, Seat, Side, Trump};
use certificate_graph::Node;
use evidence::is_graph_of;
use play_claims::{PlayBundle, PlayClaim, PlayNodes};
use std::marker::Model;

/// The most tricks that a claim can have.
const MOST_TRICKS: u8 = 13;

/// The most cards.
const MOST_CARDS: usize = 52;

/// The most claims, and the most begun nodes of a side.
const MOST: usize = 53;

/// Each number of a node is below this one.
const NODES: u32 = 1_000_000;

/// A play, claims for each number of its first cards, and the nodes of both sides that are to show them, borrowed. It
/// may be no section.
#[derive(Clone, Copy)]
pub struct PlayContents<'a> {
    /// The layout before the first card.
    pub layout: &'a Layout,
    /// The seat that leads to the first trick.
    pub leader: Seat,
    /// The denomination.
    pub trump: Trump,
    /// The cards in the order in which they were played. Whether they may be played is not asked.
    pub cards: &'a [Card],
    /// The claims, and the nodes of both sides.
    pub bundle: &'a PlayBundle,
}

/// The evidence of a play.
#[derive(Drop)]
pub struct PlaySection {
    layout: Layout,
    leader: Seat,
    trump: Trump,
    cards: ArrayVec<Card, 52>,
    bundle: PlayBundle,
}

impl Model for PlaySection {
    ghost use Rattle.std.specs.Coded.{codes};
    ghost use Rattle.certificate_graph.specs.TreeCodes.{tree_code};
    ghost use Rattle.play_evidence.specs.Sections.{PlaySectionShape, IsPlaySection, shape_of};

    ghost Value = { PlaySectionShape };

    ghost coded = { Prim.hlevel (codes, tree_code) };

    ghost view = { λ section. shape_of section.layout section.leader section.trump section.cards.items section.bundle };

    ghost invariant = { λ section. IsPlaySection
        (shape_of section.layout section.leader section.trump section.cards.items section.bundle) };
}

/// Whether there is no number of a node, or one that a graph could have.
fn is_root(root: Option<u32>) -> bool
    ensures { IsTrue result ↔ IsRoot root }
{
    match root {
        Some(number) => number < NODES,
        None => true,
    }
}

/// Whether a section can have the numbers of a claim.
fn are_numbers(claim: &PlayClaim) -> bool
    ensures { IsTrue result ↔ IsNumbers claim.now }
{
    claim.tricks <= MOST_TRICKS && is_root(claim.ns) && is_root(claim.ew)
}

/// Whether a section can have the claim.
fn is_kept_claim(claim: &Option<PlayClaim>) -> bool
    ensures { IsTrue result ↔ IsKeptClaim claim.now }
{
    match claim {
        Some(claim) => are_numbers(claim),
        None => true,
    }
}

/// Whether a section can have each of the claims.
fn are_each_claims(claims: &[Option<PlayClaim>]) -> bool
    ensures { IsTrue result ↔ AllByRecursion IsKeptClaim claims.now }
{
    match claims {
        [] => true,
        [claim, more @ ..] => is_kept_claim(claim) && are_each_claims(more),
    }
}

/// Whether a section can have the claims.
fn are_claims(claims: &[Option<PlayClaim>]) -> bool
    ensures { IsTrue result ↔ AreKept IsKeptClaim claims.now }
{
    claims.len() <= MOST && are_each_claims(claims)
}

/// Whether each of the nodes could be one of the largest graph.
fn are_each_begun(nodes: &[Node]) -> bool
    ensures { IsTrue result ↔ AllByRecursion IsBegun nodes.now }
{
    match nodes {
        [] => true,
        [node, more @ ..] => node.fits_largest() && are_each_begun(more),
    }
}

/// Whether a section can have the begun nodes.
fn are_begun(nodes: &[Node]) -> bool
    ensures { IsTrue result ↔ AreKept IsBegun nodes.now }
{
    nodes.len() <= MOST && are_each_begun(nodes)
}

/// Whether a section with this trump can have the nodes of this side.
fn are_nodes_of(trump: Trump, side: Side, nodes: &PlayNodes) -> bool
    ensures { IsTrue result ↔ AreNodesOf trump side (nodes_of nodes.now) }
{
    is_graph_of(trump, side, &nodes.graph) && are_begun(nodes.begun.as_slice())
}

impl<'a> PlayContents<'a> {
    /// Whether it is a section: it has at most 52 cards, 53 claims and 53 begun nodes of each side; no claim has more
    /// than 13 tricks, or a node from 1,000,000 on; each begun node could be of the largest graph; and the graphs are
    /// of both sides, with the trump. Takes no memory.
    pub fn is_section(&self) -> bool
        ensures { IsTrue result ↔ IsPlaySection (parts_of self.now) }
    {
        self.layout.invariant();
        self.cards.len() <= MOST_CARDS
            && are_claims(self.bundle.claims.as_slice())
            && are_nodes_of(self.trump, Side::NorthSouth, &self.bundle.ns)
            && are_nodes_of(self.trump, Side::EastWest, &self.bundle.ew)
    }
}

impl PlaySection {
    /// Returns the section of these, if they are one ([`PlayContents::is_section`]). Takes no memory.
    pub fn new(
        layout: Layout,
        leader: Seat,
        trump: Trump,
        cards: ArrayVec<Card, 52>,
        bundle: PlayBundle,
    ) -> Option<PlaySection>
        ensures { MakesPlaySection (shape_of layout leader trump cards.items bundle) result }
    {
        let contents = PlayContents {
            layout: &layout,
            leader,
            trump,
            cards: cards.as_slice(),
            bundle: &bundle,
        };
        if !contents.is_section() {
            return None;
        }
        Some(PlaySection {
            layout,
            leader,
            trump,
            cards,
            bundle,
        })
    }

    /// The parts of the section.
    pub fn contents(&self) -> PlayContents<'_>
        ensures { parts_of result ≡ self.now }
    {
        PlayContents {
            layout: &self.layout,
            leader: self.leader,
            trump: self.trump,
            cards: self.cards.as_slice(),
            bundle: &self.bundle,
        }
    }

    /// What every section keeps. It does nothing.
    pub fn invariant(&self)
        ensures { IsPlaySection self.now }
    {
        let _ = &self.bundle;
    }
}
