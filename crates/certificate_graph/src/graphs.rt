//! A graph of patterns, and which rows of nodes are one.

ghost use Rattle.std.specs.Prelude.{◌≡◌, ◌⊎◌, ◌↔◌, Err, IfOk, IsTrue, length};
ghost use Rattle.certificate_graph.specs.Graphs.{IsGraph, IsNode};
ghost use Rattle.certificate_graph.specs.Extracts.{IsExtract, IsRootIn};
ghost use Rattle.cards.specs.Devices.{Writes};
ghost use Rattle.certificate_graph.specs.GraphFaults.{MakesGraph};
ghost use Rattle.certificate_graph.specs.TextFaults.{TextAnswers};
ghost use Rattle.certificate_graph.specs.Texts.{graph_text};
ghost use Rattle.certificate_graph.specs.declared.faults.TextFault.TheVariants as text_fault;

use crate::checks::{check_node, check_nodes};
use crate::extracting::exchange_nodes;
use crate::faults::{GraphFault, TextFault};
use crate::head_reading::{read_count, read_side, read_title, read_trump};
use crate::line_writing::{write_count, write_heading, write_nodes};
use crate::node_reading::read_nodes;
use crate::nodes::Node;
use crate::versions::Version;
use cards::{DeviceFault, OutOfMemory, Side, Sink, Trump};
use std::alloc::Global;
use std::marker::Model;

/// A graph of a version and of a side, with a trump: at most 1,000,000 nodes, each named by its place.
#[derive(Drop)]
pub struct Graph {
    version: Version,
    trump: Trump,
    side: Side,
    nodes: Vec<Node>,
}

impl Model for Graph {
    ghost use Rattle.certificate_graph.specs.Graphs.{GraphShape, IsGraph};
    ghost use Rattle.certificate_graph.specs.TreeCodes.{tree_code};
    ghost use Rattle.std.specs.Coded.{codes};

    ghost Value = { GraphShape };

    ghost coded = { Prim.hlevel (codes, tree_code) };

    ghost view = { λ graph. record
        { version = graph.version; trump = graph.trump; side = graph.side; nodes = graph.nodes.items } };

    ghost invariant = { λ graph. IsGraph
        (record { version = graph.version; trump = graph.trump; side = graph.side; nodes = graph.nodes.items }) };
}

impl Graph {
    /// The graph of these nodes; else `TooLarge`, or the first fault, in the order of their numbers, of the first node
    /// that has one. Takes no memory.
    pub fn new(
        version: Version,
        trump: Trump,
        side: Side,
        nodes: Vec<Node>,
    ) -> Result<Graph, GraphFault>
        ensures { MakesGraph version trump side nodes.items result }
    {
        check_nodes(nodes.as_slice())?;
        Ok(Graph {
            version,
            trump,
            side,
            nodes,
        })
    }

    /// The version of the rules by which it is checked.
    pub fn version(&self) -> Version
        ensures { result ≡ self.now.version }
    {
        self.version
    }

    /// The denomination that it is of.
    pub fn trump(&self) -> Trump
        ensures { result ≡ self.now.trump }
    {
        self.trump
    }

    /// The side whose tricks the nodes count.
    pub fn side(&self) -> Side
        ensures { result ≡ self.now.side }
    {
        self.side
    }

    /// The nodes by their numbers.
    pub fn nodes(&self) -> &[Node]
        ensures { result.now ≡ self.now.nodes }
    {
        self.nodes.as_slice()
    }

    /// Whether this could be a node of the graph: it needs 1 to 13 tricks, its tree is of the form of trees, and its
    /// leaves name nodes of the graph.
    pub fn admits(&self, node: &Node) -> bool
        ensures { IsTrue result ↔ IsNode (length self.now.nodes) node.now }
    {
        self.invariant();
        check_node(node, self.nodes().len() as u32).is_ok()
    }

    /// The graph that the text tells, else the fault of the first line that has one, in a line the first in the order
    /// of their numbers, or that memory ran out.
    pub fn read(alloc: Global, text: &[u8]) -> Result<Graph, TextFault>
        ensures { (result ≡ Err text_fault.OutOfMemory) ⊎ TextAnswers text.now result }
    {
        let Some((version, rest)) = read_title(text) else {
            return Err(TextFault::Head { line: 1 });
        };
        let Some((trump, rest)) = read_trump(rest) else {
            return Err(TextFault::Head { line: 2 });
        };
        let Some((side, rest)) = read_side(rest) else {
            return Err(TextFault::Head { line: 3 });
        };
        let (count, rest) = read_count(rest)?;
        let nodes = read_nodes(alloc, count, rest)?;
        Ok(Graph {
            version,
            trump,
            side,
            nodes,
        })
    }

    /// Writes the text of the graph. After a fault of the sink a beginning of it has gone out. Takes no memory.
    pub fn write<S: Sink>(&self, sink: &mut S) -> Result<(), DeviceFault>
        ensures { Writes (S.state sink.old) (S.state sink.new) (graph_text self.now) result }
    {
        self.invariant();
        let nodes = self.nodes();
        write_heading(sink, self.version(), self.trump(), self.side())?;
        write_count(sink, nodes.len() as u32)?;
        write_nodes(sink, nodes)
    }

    /// The graph with the node of this number first: that node and the first are exchanged, and the leaves name them by
    /// their new numbers. Without a number it has no nodes. Fails only where memory runs out.
    pub fn extract(&self, alloc: Global, root: Option<u32>) -> Result<Graph, OutOfMemory>
        requires { IsRootIn self.now.nodes root }
        ensures { IfOk result (IsExtract self.now root) }
    {
        let nodes = match root {
            Some(number) => exchange_nodes(alloc, self, number)?,
            None => Vec::new(alloc),
        };
        Ok(Graph {
            version: self.version,
            trump: self.trump,
            side: self.side,
            nodes,
        })
    }

    /// What every graph keeps.
    pub fn invariant(&self)
        ensures { IsGraph self.now }
    {
        let _ = &self.nodes;
    }
}
