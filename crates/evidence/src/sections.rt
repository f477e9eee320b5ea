//! A section of evidence, and what it is made of.

ghost use Rattle.std.specs.Prelude.{◌≡◌, ◌↔◌, IsTrue};
ghost use Rattle.cards.specs.declared.seats.Side.TheVariants as side;
ghost use Rattle.evidence.specs.Sections.{IsSection, IsGraphOf, MakesSection};

use crate::claims::are_claims;
use cards::{Layout, Side, Trump};
use certificate_graph::{Bundle, Claim, Graph};
use std::marker::Model;

/// What was found of a layout in one denomination: one to four claims, at most one for a declarer and in the order
/// North, East, South, West, and the graphs of North and South and of East and West that are to show them.
#[derive(Drop)]
pub struct Section {
    layout: Layout,
    trump: Trump,
    bundle: Bundle,
}

impl Model for Section {
    ghost use Rattle.std.specs.Coded.{codes};
    ghost use Rattle.certificate_graph.specs.TreeCodes.{tree_code};
    ghost use Rattle.evidence.specs.Sections.{SectionShape, IsSection, shape_of};

    ghost Value = { SectionShape };

    ghost coded = { Prim.hlevel (codes, tree_code) };

    ghost view = { λ section. shape_of section.layout section.trump section.bundle };

    ghost invariant = { λ section. IsSection (shape_of section.layout section.trump section.bundle) };
}

/// What a section is made of, borrowed. It may be of no section.
#[derive(Drop)]
pub(crate) struct Contents<'a> {
    pub(crate) layout: &'a Layout,
    pub(crate) trump: Trump,
    pub(crate) claims: &'a [Claim],
    pub(crate) ns: &'a Graph,
    pub(crate) ew: &'a Graph,
}

impl<'a> Model for Contents<'a> {
    ghost use Rattle.std.specs.Coded.{codes};
    ghost use Rattle.certificate_graph.specs.TreeCodes.{tree_code};
    ghost use Rattle.evidence.specs.Sections.{SectionShape};

    ghost Value = { SectionShape };

    ghost coded = { Prim.hlevel (codes, tree_code) };

    ghost view = { λ contents. record {
      deal = contents.layout.now;
      trump = contents.trump;
      claims = contents.claims.now;
      ns = contents.ns.now;
      ew = contents.ew.now;
    } };
}

/// Whether it is a graph of this side, with this trump.
pub fn is_graph_of(trump: Trump, side: Side, graph: &Graph) -> bool
    ensures { IsTrue result ↔ IsGraphOf trump side graph.now }
{
    graph.invariant();
    graph.trump() == trump && graph.side() == side
}

impl<'a> Contents<'a> {
    /// Whether a section can be made of it.
    pub(crate) fn is_section(&self) -> bool
        ensures { IsTrue result ↔ IsSection self.now }
    {
        self.layout.invariant();
        !self.claims.is_empty()
            && are_claims(0, self.claims)
            && is_graph_of(self.trump, Side::NorthSouth, self.ns)
            && is_graph_of(self.trump, Side::EastWest, self.ew)
    }
}

impl Section {
    /// The section of these. Where they are none, the bundle is handed back: it has no claim, or one of over 13 tricks,
    /// or by a root that no graph can have, or claims not in the order of their declarers, each once; or a graph of
    /// another denomination or of the other side. Takes no memory.
    pub fn new(layout: Layout, trump: Trump, bundle: Bundle) -> Result<Section, Bundle>
        ensures { MakesSection layout trump bundle result }
    {
        let contents = Contents {
            layout: &layout,
            trump,
            claims: bundle.claims.as_slice(),
            ns: &bundle.ns,
            ew: &bundle.ew,
        };
        if !contents.is_section() {
            return Err(bundle);
        }
        Ok(Section {
            layout,
            trump,
            bundle,
        })
    }

    /// The four hands.
    pub fn layout(&self) -> &Layout
        ensures { result.now ≡ self.now.deal }
    {
        &self.layout
    }

    /// The denomination.
    pub fn trump(&self) -> Trump
        ensures { result ≡ self.now.trump }
    {
        self.trump
    }

    /// The claims, in the order of their declarers.
    pub fn claims(&self) -> &[Claim]
        ensures { result.now ≡ self.now.claims }
    {
        self.bundle.claims.as_slice()
    }

    /// What North and South can win.
    pub fn ns(&self) -> &Graph
        ensures { result.now ≡ self.now.ns }
    {
        &self.bundle.ns
    }

    /// What East and West can win.
    pub fn ew(&self) -> &Graph
        ensures { result.now ≡ self.now.ew }
    {
        &self.bundle.ew
    }

    /// What it is made of.
    pub(crate) fn contents(&self) -> Contents<'_>
        ensures { result ≡ self.now }
    {
        Contents {
            layout: self.layout(),
            trump: self.trump(),
            claims: self.claims(),
            ns: self.ns(),
            ew: self.ew(),
        }
    }

    /// The claims and graphs, by value.
    pub fn into_bundle(self) -> Bundle
        ensures claims { result.claims.items ≡ self.claims }
        ensures ns { result.ns.value ≡ self.ns }
        ensures ew { result.ew.value ≡ self.ew }
    {
        let Section { bundle, .. } = self;
        bundle
    }

    /// What every section keeps. It does nothing.
    pub fn invariant(&self)
        ensures { IsSection self.now }
    {
        let _ = &self.bundle;
    }
}
