//! A row of moments.

ghost use Rattle.std.specs.Prelude.{◌≡◌, ◌<◌, ◌≤◌, ◌^◌, length, replicate, slice_set, MatchOption, IfOk, None};
ghost use Rattle.due_rows.specs.Moments.{IsFirstDue, NoneIsDue};

use crate::nodes::{first_due_node, put};
use std::alloc::{AllocError, Global};
use std::marker::Model;

/// A row of places, each with a moment or none. Contracts see the list of them. A moment is a number of whatever unit
/// the caller counts time in.
#[derive(Drop)]
pub struct DueRow {
    /// Twice as many nodes as leaves. The leaf of place i is node `half + i`.
    nodes: Vec<Option<u64>>,
    /// How many leaves there are.
    half: usize,
    /// How many levels stand above the leaves.
    depth: usize,
    /// How many places there are. Further leaves have no moment.
    count: usize,
}

impl Model for DueRow {
    ghost use Rattle.std.specs.Prelude.{List, Option, ℕ, take, drop};
    ghost use Rattle.due_rows.specs.Trees.{IsTree};

    ghost Value = { List (Option ℕ) };

    ghost view = { λ row. take row.count (drop row.half row.nodes.items) };

    ghost invariant = { λ row. IsTree row.nodes.items row.half row.depth row.count };
}

impl DueRow {
    /// A row of this many places without a moment. `AllocError` where memory runs out.
    pub fn new(alloc: Global, count: usize) -> Result<DueRow, AllocError>
        requires { count ≤ 2 ^ 32 }
        ensures { IfOk result (λ row. row ≡ replicate count None) }
    {
        let mut half = 1;
        let mut depth = 0;
        while half < count {
            half *= 2;
            depth += 1;
        }
        let nodes = Vec::from_elem(alloc, None, 2 * half)?;
        Ok(DueRow {
            nodes,
            half,
            depth,
            count,
        })
    }

    /// How many places there are.
    pub fn len(&self) -> usize
        ensures { result ≡ length self.now }
    {
        self.count
    }

    /// Gives the place this moment, or none.
    pub fn set(&mut self, place: usize, moment: Option<u64>)
        requires { place < length self.old }
        ensures { self.new ≡ slice_set self.old place moment }
    {
        let half = self.half;
        put(&mut self.nodes, half, half + place, moment);
    }

    /// The first place from this one on whose moment has come, so that it is at most `now`.
    pub fn first_due(&self, now: u64, from: usize) -> Option<usize>
        ensures { MatchOption result
            (NoneIsDue now from (length self.now) self.now)
            (IsFirstDue now from (length self.now) self.now) }
    {
        if from >= self.count {
            return None;
        }
        let node = first_due_node(
            self.nodes.as_slice(),
            now,
            self.half + from,
            2 * self.half,
            self.depth,
        )?;
        Some(node - self.half)
    }
}
