//! The partition search as a solver.

use crate::card_claims::{card_bundle_of, count_cards, may_all_be_played, tricks_begun};
use crate::claims::bundle_of;
use crate::memory::Memory;
use crate::play_searches::{is_all_claimed, play_bundle_of};
use cards::{Card, Layout, Seat, Trump};
use certificate_graph::{Bundle, CardBundle, CardSolver, Solver};
use play_claims::{PlayBundle, PlaySolver};
use std::alloc::{AllocError, Global};

/// A partition search. A step of its budget is one card tried, in the search or for a tree of a graph; where the last
/// hand of a trick has a choice, its card is free if it is only looked up. Each declarer's tricks are searched within
/// the budget, but that a trick which was begun is searched to its end; where that is not enough for all, half of what
/// the others leave of it is searched with too. With the rest the graphs are written. What it finds is remembered for
/// later calls, unless each seat has a claim: a call that ran out of steps can be made again, and declarers can be
/// asked for one by one. The cards of a trick are searched in the same way, each like a declarer. Threads may call it
/// at once: none waits.
#[derive(Drop)]
pub struct Partition {
    memory: Memory,
}

impl Partition {
    /// A solver that remembers nothing yet. It takes no memory. What it remembers later takes 130 MB at most where one
    /// thread calls it, 160 where two call at once, and 80 more for each further one; 50 more while a call goes on that
    /// began when it was the only one.
    pub const fn new() -> Partition {
        Partition {
            memory: Memory::new(),
        }
    }

    /// Claims, as `solve` gives them. Where each seat has one the search is not kept.
    fn found(
        &self,
        alloc: Global,
        layout: &Layout,
        declarers: &[Seat],
        trump: Trump,
        budget: u64,
    ) -> Result<Option<Bundle>, AllocError> {
        let mut search = self.memory.search_of(alloc, layout, trump)?;
        let bundle = bundle_of(&mut search, layout.len() as i32, declarers, trump, budget);
        if search.memory_ran_out {
            return Err(AllocError);
        }
        if !bundle
            .as_ref()
            .is_some_and(|bundle| bundle.claims.is_full())
        {
            self.memory.keep(search);
        }
        Ok(bundle)
    }

    /// Claims, as `solve_cards` gives them. Where each card has one the search is not kept.
    fn found_cards(
        &self,
        alloc: Global,
        layout: &Layout,
        leaders: &[Seat],
        trump: Trump,
        played: &[Card],
        budget: u64,
    ) -> Result<Option<CardBundle>, AllocError> {
        let mut search = self.memory.search_of(alloc, layout, trump)?;
        let tricks = tricks_begun(&search, leaders, played)?;
        let cards = count_cards(&search, &tricks);
        let bundle = card_bundle_of(&mut search, trump, &tricks, budget);
        if search.memory_ran_out {
            return Err(AllocError);
        }
        if !bundle
            .as_ref()
            .is_some_and(|bundle| bundle.claims.len() == cards)
        {
            self.memory.keep(search);
        }
        Ok(bundle)
    }
}

impl Partition {
    /// Claims, as `solve_play` gives them. If there is one for each number of first cards, the search is not kept.
    fn found_play(
        &self,
        alloc: Global,
        layout: &Layout,
        leader: Seat,
        trump: Trump,
        cards: &[Card],
        budget: u64,
    ) -> Result<PlayBundle, AllocError> {
        let mut search = self.memory.search_of(alloc, layout, trump)?;
        let Some(bundle) = play_bundle_of(&mut search, leader, trump, cards, budget) else {
            return Err(AllocError);
        };
        if !is_all_claimed(&bundle) {
            self.memory.keep(search);
        }
        Ok(bundle)
    }
}

impl PlaySolver for Partition {
    fn solve_play(
        &self,
        alloc: Global,
        layout: &Layout,
        leader: Seat,
        trump: Trump,
        cards: &[Card],
        budget: u64,
    ) -> Result<PlayBundle, AllocError> {
        self.memory.enter();
        let found = self.found_play(alloc, layout, leader, trump, cards, budget);
        self.memory.leave();
        if found.is_err() {
            self.memory.shrink(0);
        }
        found
    }
}

impl Default for Partition {
    fn default() -> Partition {
        Partition::new()
    }
}

impl Solver for Partition {
    fn solve(
        &self,
        alloc: Global,
        layout: &Layout,
        declarers: &[Seat],
        trump: Trump,
        budget: u64,
    ) -> Result<Option<Bundle>, AllocError> {
        self.memory.enter();
        let found = self.found(alloc, layout, declarers, trump, budget);
        self.memory.leave();
        if found.is_err() {
            self.memory.shrink(0);
        }
        found
    }
}

impl CardSolver for Partition {
    fn solve_cards(
        &self,
        alloc: Global,
        layout: &Layout,
        leaders: &[Seat],
        trump: Trump,
        played: &[Card],
        budget: u64,
    ) -> Result<Option<CardBundle>, AllocError> {
        if !may_all_be_played(layout, leaders, played) {
            return Ok(None);
        }
        self.memory.enter();
        let found = self.found_cards(alloc, layout, leaders, trump, played, budget);
        self.memory.leave();
        if found.is_err() {
            self.memory.shrink(0);
        }
        found
    }
}
