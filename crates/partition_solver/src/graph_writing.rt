//! The graph of a side, written from its roots on, each node after those that name it first.

use crate::pattern_tricks::{PatternStart, word_of};
use crate::plans::{Plan, PlannedChild, TrickStart};
use cards::{OutOfMemory, Seat, Side, Trump};
use certificate_graph::{BareNode, Graph, Node, Token, Tree, Version};
use partition_search::{Lengths, Search};
use pattern_store::Record;
use patterns::Pattern;
use std::alloc::{AllocError, Global};
use std::sync::Arc;

/// How many nodes a graph has at most.
const MOST_NODES: usize = 1_000_000;

/// A graph in work.
#[derive(Drop)]
pub(crate) struct Writing {
    alloc: Global,
    pub(crate) plan: Plan,
    todo: Vec<TrickStart>,
    /// The nodes that have their trees.
    nodes: Vec<Node>,
    /// The nodes after them, and the tokens of their trees.
    bares: Vec<BareNode>,
    row: Vec<Token>,
}

/// The graph of a side that begins with these roots. None where what is remembered does not show them, no steps are
/// left, or memory ran out.
pub(crate) fn write_graph(
    search: &mut Search,
    trump: Trump,
    side: Side,
    roots: &[TrickStart],
) -> Option<Arc<Graph>> {
    let mut writing = Writing::new(search, side)?;
    if writing.put_down_roots(roots).is_err() {
        search.run_out();
        return None;
    }
    writing.finish(search, trump)
}

/// The seat with this number.
fn seat_at(number: usize) -> Seat {
    Seat::ALL[number & 3]
}

impl Writing {
    /// A graph of a side without nodes. None where memory runs out.
    pub(crate) fn new(search: &mut Search, side: Side) -> Option<Writing> {
        let alloc = search.alloc;
        let Ok(plan) = Plan::new(alloc, search, side) else {
            search.run_out();
            return None;
        };
        Some(Writing {
            alloc,
            plan,
            todo: Vec::new(alloc),
            nodes: Vec::new(alloc),
            bares: Vec::new(alloc),
            row: Vec::new(alloc),
        })
    }

    /// Writes the nodes that are put down, and all that they name. None where what is remembered does not show one, no
    /// steps are left, or memory runs out.
    pub(crate) fn finish(mut self, search: &mut Search, trump: Trump) -> Option<Arc<Graph>> {
        if !self.add_all(search) {
            return None;
        }
        self.end_block(search)?;
        let side = self.plan.side;
        let graph = self.into_graph(trump, side)?;
        let shared = Arc::new(search.alloc, graph);
        if shared.is_err() {
            search.run_out();
        }
        shared.ok()
    }

    /// The graph that is written.
    fn into_graph(self, trump: Trump, side: Side) -> Option<Graph> {
        let Writing { nodes, .. } = self;
        Graph::new(Version::Two, trump, side, nodes).ok()
    }

    /// Writes all nodes that are put down or named. False where one is not shown.
    fn add_all(&mut self, search: &mut Search) -> bool {
        for number in 0..MOST_NODES {
            let Some(start) = self.todo.get(number).copied() else {
                return true;
            };
            if self.add_node(search, start).is_none() {
                return false;
            }
        }
        self.todo.len() <= MOST_NODES
    }

    /// Puts down the roots.
    fn put_down_roots(&mut self, roots: &[TrickStart]) -> Result<(), AllocError> {
        for root in roots {
            self.put_down(*root)?;
        }
        Ok(())
    }

    /// Puts a node down for writing, with the next number, unless it has one. Answers its number, from 1.
    pub(crate) fn put_down(&mut self, start: TrickStart) -> Result<u32, AllocError> {
        let old = self.plan.number(start.record);
        if old != 0 {
            return Ok(old);
        }
        self.todo.push(start)?;
        let number = (self.todo.len() & 0xffff_ffff) as u32;
        if let Some(old) = self.plan.numbers.get_mut(start.record as usize) {
            *old = number;
        }
        Ok(number)
    }

    /// Writes a node. None where it is not shown, no steps are left or memory runs out.
    fn add_node(&mut self, search: &mut Search, start: TrickStart) -> Option<()> {
        let record = search.records.record(start.record);
        let held = PatternStart::of(&search.deal, &record, start.left, start.lengths);
        self.plan
            .show(search, held, start.leader, i32::from(record.need))?;
        let said = self.bare_node(search, &record, start.lengths, start.leader)?;
        if self.push(said).is_err() {
            search.run_out();
            return None;
        }
        if self.row.len() < BareNode::BLOCK {
            return Some(());
        }
        self.end_block(search)
    }

    /// Adds a node, whose tree is the one in work.
    fn push(&mut self, said: BareNode) -> Result<(), AllocError> {
        self.bares.push(said)?;
        self.row.extend_from_slice(self.plan.tokens.as_slice())
    }

    /// Gives the last nodes their trees. None where memory runs out, or where the tokens are those of no trees.
    fn end_block(&mut self, search: &mut Search) -> Option<()> {
        let bares = self.bares.as_slice();
        let row = self.row.as_slice();
        let Ok(is_done) = Node::push_all(self.alloc, bares, row, &mut self.nodes) else {
            search.run_out();
            return None;
        };
        self.bares.clear();
        self.row.clear();
        if is_done { Some(()) } else { None }
    }

    /// The node of a record of these lengths, with this seat to lead and the tree in work, without its tree. The nodes
    /// that it names are put down. None where memory runs out.
    fn bare_node(
        &mut self,
        search: &mut Search,
        record: &Record,
        lengths: Lengths,
        leader: usize,
    ) -> Option<BareNode> {
        let pattern = self.pattern_of(record, lengths)?;
        if self.name_children().is_err() {
            search.run_out();
            return None;
        }
        Some(BareNode {
            pattern,
            lead: seat_at(leader),
            need: record.need,
            count: self.plan.tokens.len(),
        })
    }

    /// The node of a record of these lengths, with this seat to lead and the tree in work. The nodes that it names are
    /// put down. None where memory runs out.
    pub(crate) fn node_of(
        &mut self,
        search: &mut Search,
        record: &Record,
        lengths: Lengths,
        leader: usize,
    ) -> Option<Node> {
        let said = self.bare_node(search, record, lengths, leader)?;
        let Ok(tree) = self.tree() else {
            search.run_out();
            return None;
        };
        Some(Node {
            pattern: said.pattern,
            lead: said.lead,
            need: said.need,
            tree: tree?,
        })
    }

    /// The tree in work.
    fn tree(&self) -> Result<Option<Tree>, OutOfMemory> {
        let tokens = Vec::from_slice(self.alloc, self.plan.tokens.as_slice())?;
        Tree::from_tokens(self.alloc, tokens)
    }

    /// Puts down the nodes that the tree in work names.
    fn name_children(&mut self) -> Result<(), AllocError> {
        for number in 0..self.plan.children.len() {
            if let Some(child) = self.plan.children.get(number).copied() {
                self.name_child(child)?;
            }
        }
        Ok(())
    }

    /// Puts a child down, and its number into its token.
    fn name_child(&mut self, child: PlannedChild) -> Result<(), AllocError> {
        let number = self.put_down(child.start)?.wrapping_sub(1);
        if let Some(token) = self.plan.tokens.get_mut(child.place) {
            *token = Token::Child(seat_at(child.start.leader), number);
        }
        Ok(())
    }

    /// The pattern of a record of these lengths.
    fn pattern_of(&self, record: &Record, lengths: Lengths) -> Option<Pattern> {
        let lanes = self.plan.lanes;
        Pattern::from_words([
            word_of(record, lengths, lanes[0]),
            word_of(record, lengths, lanes[1]),
            word_of(record, lengths, lanes[2]),
            word_of(record, lengths, lanes[3]),
        ])
        .ok()
    }
}
