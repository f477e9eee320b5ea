//! The line of a node by itself, for nodes that are kept beside a graph.

ghost use Rattle.std.specs.Prelude.{◌≡◌, ◌≢◌, ◌↔◌, IsTrue, [], MatchOption, IfOk};
ghost use Rattle.cards.specs.Devices.{Writes};
ghost use Rattle.certificate_graph.specs.Graphs.{IsNode, IsTree, greatest_count};
ghost use Rattle.certificate_graph.specs.NodeLines.{LacksNodeLine};
ghost use Rattle.certificate_graph.specs.Texts.{node_text};
ghost use Rattle.certificate_graph.specs.declared.faults.TextFault.TheVariants as text_fault;

use crate::checks::{GREATEST_COUNT, is_node};
use crate::cursors::Cursor;
use crate::faults::TextFault;
use crate::line_writing::write_node;
use crate::node_reading::read_node;
use crate::nodes::Node;
use cards::{DeviceFault, OutOfMemory, Sink};
use std::alloc::Global;

impl Node {
    /// Whether this could be a node of the largest graph.
    pub fn fits_largest(&self) -> bool
        ensures { IsTrue result ↔ IsNode greatest_count self.now }
    {
        is_node(self, GREATEST_COUNT as u32)
    }

    /// Writes the line of the node, as the text of a graph has it.
    pub fn write_line<S: Sink>(&self, sink: &mut S) -> Result<(), DeviceFault>
        requires { IsTree self.now.tree }
        ensures { Writes (S.state sink.old) (S.state sink.new) (node_text self.now []) result }
    {
        write_node(sink, self)
    }

    /// Returns the node whose line is at the beginning of the text, and the text after the line. None if no line of a
    /// node is there that could be one of the largest graph.
    pub fn read_line(alloc: Global, text: &[u8]) -> Result<Option<(Node, &[u8])>, OutOfMemory>
        ensures { IfOk result (λ read. MatchOption read (LacksNodeLine text.now)
            (λ found. IsNode greatest_count found.0 × (text.now ≡ node_text found.0 found.1.now))) }
    {
        let mut row = Vec::new(alloc);
        let mut cursor = Cursor { rest: text };
        match read_node(GREATEST_COUNT as u32, 1, &mut cursor, &mut row) {
            Ok(said) => Ok(Some((said.with_tree(alloc, row)?, cursor.rest))),
            Err(fault) => {
                unless_memory(fault)?;
                Ok(None)
            }
        }
    }
}

/// Fails if the fault is that memory ran out.
fn unless_memory(fault: TextFault) -> Result<(), OutOfMemory>
    ensures { IfOk result (λ _. fault ≢ text_fault.OutOfMemory) }
{
    match fault {
        TextFault::OutOfMemory => Err(OutOfMemory),
        _ => Ok(()),
    }
}
