//! Solvers, a gate and a clock that do nothing.

use cards::{Card, Layout, Seat, Trump};
use certificate_graph::{Bundle, CardBundle, CardSolver, Solver};
use lease_book::{Clock, Gate};
use play_claims::{PlayBundle, PlaySolver};
use std::alloc::{AllocError, Global};

/// A solver that finds nothing.
#[derive(Drop)]
pub struct FindsNothing;

impl Solver for FindsNothing {
    fn solve(
        &self,
        _alloc: Global,
        _layout: &Layout,
        _declarers: &[Seat],
        _trump: Trump,
        _budget: u64,
    ) -> Result<Option<Bundle>, AllocError> {
        Ok(None)
    }
}

impl CardSolver for FindsNothing {
    fn solve_cards(
        &self,
        _alloc: Global,
        _layout: &Layout,
        _leaders: &[Seat],
        _trump: Trump,
        _played: &[Card],
        _budget: u64,
    ) -> Result<Option<CardBundle>, AllocError> {
        Ok(None)
    }
}

impl PlaySolver for FindsNothing {
    fn solve_play(
        &self,
        _alloc: Global,
        _layout: &Layout,
        _leader: Seat,
        _trump: Trump,
        _cards: &[Card],
        _budget: u64,
    ) -> Result<PlayBundle, AllocError> {
        Err(AllocError)
    }
}

/// Answers for tables as a solver does, and finds nothing for cards and plays.
#[derive(Drop)]
pub struct OnlyTables<'a, S> {
    /// The solver.
    pub solver: &'a S,
}

impl<S: Solver> Solver for OnlyTables<'_, S> {
    fn solve(
        &self,
        alloc: Global,
        layout: &Layout,
        declarers: &[Seat],
        trump: Trump,
        budget: u64,
    ) -> Result<Option<Bundle>, AllocError> {
        self.solver.solve(alloc, layout, declarers, trump, budget)
    }
}

impl<S> CardSolver for OnlyTables<'_, S> {
    fn solve_cards(
        &self,
        alloc: Global,
        layout: &Layout,
        leaders: &[Seat],
        trump: Trump,
        played: &[Card],
        budget: u64,
    ) -> Result<Option<CardBundle>, AllocError> {
        FindsNothing.solve_cards(alloc, layout, leaders, trump, played, budget)
    }
}

impl<S> PlaySolver for OnlyTables<'_, S> {
    fn solve_play(
        &self,
        alloc: Global,
        layout: &Layout,
        leader: Seat,
        trump: Trump,
        cards: &[Card],
        budget: u64,
    ) -> Result<PlayBundle, AllocError> {
        FindsNothing.solve_play(alloc, layout, leader, trump, cards, budget)
    }
}

/// A clock that stands still.
#[derive(Drop)]
pub struct StandsStill;

impl Clock for StandsStill {
    fn now(&self) -> u64 {
        0
    }
}

/// A gate that lets all pass.
#[derive(Drop)]
pub struct LetsPass;

impl Gate for LetsPass {
    fn before_solve(&self, _lease: u64) {}

    fn before_check(&self, _lease: u64) {}
}
