//! Evidence in place of a solver.

ghost use Rattle.std.specs.Prelude.{◌≡◌, ◌↔◌, [], IfOk, IsTrue, MatchOption};
ghost use Rattle.play_evidence.specs.Answers.{IsFirst, IsForNone, IsOfPlay};
ghost use Rattle.play_evidence.specs.Sections.{nodes_of, parts_of};

use crate::node_copies::copy_nodes;
use crate::sections::{PlayContents, PlaySection};
use cards::{Card, Layout, OutOfMemory, Seat, Side, Trump, equals_are_one};
use certificate_graph::{Graph, Version};
use play_claims::{PlayBundle, PlayNodes, PlaySolver};
use std::alloc::{AllocError, Global};
use std::marker::Model;
use std::sync::Arc;

/// Sections of plays, which answer in place of a search.
#[derive(Drop)]
pub struct FromEvidence {
    /// The sections. The first that is of a play answers for it.
    pub sections: Vec<PlaySection>,
}

/// Whether a section is of this play.
fn is_of_play(
    section: &PlayContents<'_>,
    layout: &Layout,
    leader: Seat,
    trump: Trump,
    cards: &[Card],
) -> bool
    ensures { IsTrue result ↔ IsOfPlay (parts_of section.now) layout.now leader trump cards.now }
{
    equals_are_one();
    if section.leader != leader || section.trump != trump {
        return false;
    }
    if *section.layout != *layout {
        return false;
    }
    section.cards == cards
}

/// Returns the first of the sections that is of this play.
fn section_for<'a>(
    sections: &'a [PlaySection],
    layout: &Layout,
    leader: Seat,
    trump: Trump,
    cards: &[Card],
) -> Option<&'a PlaySection>
    ensures { MatchOption result (IsForNone sections.now layout.now leader trump cards.now)
        (λ section. IsFirst sections.now layout.now leader trump cards.now section.now) }
{
    for section in sections {
        if is_of_play(&section.contents(), layout, leader, trump, cards) {
            return Some(section);
        }
    }
    None
}

/// Copies a bundle. Its graphs are shared. Fails only if memory runs out.
fn copy_bundle(alloc: Global, bundle: &PlayBundle) -> Result<PlayBundle, OutOfMemory>
    ensures claims { IfOk result (λ copy. copy.claims.items ≡ bundle.now.claims.items) }
    ensures ns { IfOk result (λ copy. nodes_of copy.ns ≡ nodes_of bundle.now.ns) }
    ensures ew { IfOk result (λ copy. nodes_of copy.ew ≡ nodes_of bundle.now.ew) }
{
    let ns = copy_nodes(alloc, &bundle.ns)?;
    let ew = copy_nodes(alloc, &bundle.ew)?;
    let claims = Vec::from_slice(alloc, bundle.claims.as_slice())?;
    Ok(PlayBundle { ns, ew, claims })
}

/// Returns no nodes of a side.
fn no_nodes(alloc: Global, trump: Trump, side: Side) -> Result<PlayNodes, AllocError> {
    let Ok(graph) = Graph::new(Version::Two, trump, side, Vec::new(alloc)) else {
        return Err(AllocError);
    };
    Ok(PlayNodes {
        graph: Arc::new(alloc, graph)?,
        begun: Vec::new(alloc),
    })
}

/// Returns a bundle that claims nothing.
fn no_bundle(alloc: Global, trump: Trump) -> Result<PlayBundle, AllocError>
    ensures { IfOk result (λ bundle. bundle.claims.items ≡ []) }
{
    let ns = no_nodes(alloc, trump, Side::NorthSouth)?;
    let ew = no_nodes(alloc, trump, Side::EastWest)?;
    Ok(PlayBundle {
        ns,
        ew,
        claims: Vec::new(alloc),
    })
}

impl PlaySolver for FromEvidence {
    ghost use Rattle.play_evidence.specs.Answers.{answers_of};

    ghost may_find_play = { λ evidence. answers_of evidence.sections.items };

    fn solve_play(
        &self,
        alloc: Global,
        layout: &Layout,
        leader: Seat,
        trump: Trump,
        cards: &[Card],
        _budget: u64,
    ) -> Result<PlayBundle, AllocError> {
        let sections = self.sections.as_slice();
        let Some(section) = section_for(sections, layout, leader, trump, cards) else {
            return no_bundle(alloc, trump);
        };
        match copy_bundle(alloc, section.contents().bundle) {
            Ok(bundle) => Ok(bundle),
            Err(_) => Err(AllocError),
        }
    }
}
