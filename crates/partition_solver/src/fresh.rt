//! The partition search as a solver that keeps nothing.

use crate::best_claims::best_bundle_of;
use crate::card_claims::{card_bundle_of, may_all_be_played, tricks_begun};
use crate::claims::bundle_of;
use crate::play_searches::play_bundle_of;
use cards::{Card, Layout, Seat, Trump};
use certificate_graph::{Bundle, CardBundle, CardSolver, Solver};
use partition_search::{Begun, Search, may_be_played};
use play_claims::{PlayBundle, PlaySolver};
use std::alloc::{AllocError, Global};

/// The search of a [`Partition`](crate::Partition) that remembers nothing from one call to the next. It takes no lock,
/// so a static library may call it, and calls in several threads share nothing.
#[derive(Clone, Copy, Debug)]
pub struct FreshPartition;

/// The same search for cards that lead to the most tricks, and for no others: a call finds one number, and claims it
/// for the cards of one run. The first claim's `others` stands after the cards played, so it says that no card leads to
/// more. If there are several leaders, it looks at the first.
#[derive(Clone, Copy, Debug)]
pub struct FreshBest;

impl Solver for FreshPartition {
    fn solve(
        &self,
        alloc: Global,
        layout: &Layout,
        declarers: &[Seat],
        trump: Trump,
        budget: u64,
    ) -> Result<Option<Bundle>, AllocError> {
        let mut search = Search::new(alloc, layout, trump)?;
        let bundle = bundle_of(&mut search, layout.len() as i32, declarers, trump, budget);
        if search.memory_ran_out {
            return Err(AllocError);
        }
        Ok(bundle)
    }
}

impl CardSolver for FreshPartition {
    fn solve_cards(
        &self,
        alloc: Global,
        layout: &Layout,
        leaders: &[Seat],
        trump: Trump,
        played: &[Card],
        budget: u64,
    ) -> Result<Option<CardBundle>, AllocError> {
        if !may_all_be_played(layout, leaders, played) {
            return Ok(None);
        }
        let mut search = Search::new(alloc, layout, trump)?;
        let tricks = tricks_begun(&search, leaders, played)?;
        let bundle = card_bundle_of(&mut search, trump, &tricks, budget);
        if search.memory_ran_out {
            return Err(AllocError);
        }
        Ok(bundle)
    }
}

impl PlaySolver for FreshPartition {
    fn solve_play(
        &self,
        alloc: Global,
        layout: &Layout,
        leader: Seat,
        trump: Trump,
        cards: &[Card],
        budget: u64,
    ) -> Result<PlayBundle, AllocError> {
        let mut search = Search::new(alloc, layout, trump)?;
        match play_bundle_of(&mut search, leader, trump, cards, budget) {
            Some(bundle) => Ok(bundle),
            None => Err(AllocError),
        }
    }
}

impl CardSolver for FreshBest {
    fn solve_cards(
        &self,
        alloc: Global,
        layout: &Layout,
        leaders: &[Seat],
        trump: Trump,
        played: &[Card],
        budget: u64,
    ) -> Result<Option<CardBundle>, AllocError> {
        let Some(leader) = leaders.first() else {
            return Ok(None);
        };
        if !may_be_played(layout, *leader, played) {
            return Ok(None);
        }
        let mut search = Search::new(alloc, layout, trump)?;
        let begun = Begun::of(&search.deal, *leader, played);
        let bundle = best_bundle_of(&mut search, trump, &begun, budget);
        if search.memory_ran_out {
            return Err(AllocError);
        }
        Ok(bundle)
    }
}
