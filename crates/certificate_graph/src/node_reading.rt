//! The nodes of a graph, as they are read.

ghost use Rattle.std.specs.Prelude.{◌≤◌, MatchResult};
ghost use Rattle.certificate_graph.specs.BareNodes.{ReadsNode};
ghost use Rattle.certificate_graph.specs.Graphs.{greatest_count};
ghost use Rattle.certificate_graph.specs.TextFaults.{IsLineFault, StopsAt};
ghost use Rattle.certificate_graph.specs.Readings.{MayFail, AreAllNodes};

use crate::bare_nodes::{BareNode, end_block, end_full_block};
use crate::cursors::Cursor;
use crate::faults::TextFault;
use crate::forms::all_name_less;
use crate::line_reading::read_line;
use crate::nodes::Node;
use crate::pattern_reading::Suits;
use crate::rows::Token;
use patterns::Pattern;
use std::alloc::Global;

/// The line of the first node, after the four lines of the heading.
const FIRST_LINE: usize = 5;

/// The line of a node has so many bytes at least.
const LEAST_BYTES: usize = 43;

/// The node whose line stands at the beginning, without its tree, which is put at the end of the row. Moves the cursor
/// after the line.
pub(crate) fn read_node(
    count: u32,
    line: usize,
    cursor: &mut Cursor<'_>,
    row: &mut Vec<Token>,
) -> Result<BareNode, TextFault>
    ensures { MatchResult result
        (λ said. ReadsNode count cursor.old.rest.now row.old.items said cursor.new.rest.now row.new.items)
        (MayFail (IsLineFault count line cursor.old.rest.now)) }
{
    let text = cursor.rest;
    if text.is_empty() {
        return Err(TextFault::Count { line });
    }
    let before = row.len();
    let Ok(read) = read_line(text, row) else {
        return Err(TextFault::OutOfMemory);
    };
    let Some((said, rest)) = read else {
        return Err(TextFault::NodeForm { line });
    };
    let Suits {
        spades,
        hearts,
        diamonds,
        clubs,
    } = said.suits;
    let Ok(pattern) = Pattern::from_words([spades, hearts, diamonds, clubs]) else {
        return Err(TextFault::BadPattern { line });
    };
    if !all_name_less(&row[before..], count) {
        return Err(TextFault::ChildNumber { line });
    }
    cursor.rest = rest;
    Ok(BareNode {
        pattern,
        lead: said.lead,
        need: said.need,
        count: said.count,
    })
}

/// So many nodes, with nothing after them.
pub(crate) fn read_nodes(alloc: Global, count: u32, text: &[u8]) -> Result<Vec<Node>, TextFault>
    requires { count ≤ greatest_count }
    ensures { MatchResult result (λ nodes. AreAllNodes count text.now nodes.items) (MayFail (StopsAt count text.now)) }
{
    // as many as there can be, whatever the text says
    let most = (count as usize).min(text.len() / LEAST_BYTES);
    let Ok(mut nodes) = Vec::with_capacity(alloc, most) else {
        return Err(TextFault::OutOfMemory);
    };
    let mut bares = Vec::new(alloc);
    let mut row = Vec::new(alloc);
    let mut cursor = Cursor { rest: text };
    for number in 0..count {
        let node = read_node(count, FIRST_LINE + number as usize, &mut cursor, &mut row)?;
        let Ok(()) = bares.push(node) else {
            return Err(TextFault::OutOfMemory);
        };
        let Ok(()) = end_full_block(alloc, &mut bares, &mut row, &mut nodes) else {
            return Err(TextFault::OutOfMemory);
        };
    }
    if !cursor.rest.is_empty() {
        return Err(TextFault::Count {
            line: FIRST_LINE + count as usize,
        });
    }
    let Ok(()) = end_block(alloc, &mut bares, &mut row, &mut nodes) else {
        return Err(TextFault::OutOfMemory);
    };
    Ok(nodes)
}
