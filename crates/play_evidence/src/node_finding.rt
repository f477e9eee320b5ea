//! Begun nodes, as they are looked for.

ghost use Rattle.std.specs.Prelude.{IfOk};
ghost use Rattle.certificate_graph.specs.Texts.{nodes_text};
ghost use Rattle.play_evidence.specs.Sections.{AreKept, IsBegun};
ghost use Rattle.play_evidence.specs.SectionTexts.{begun_text};
ghost use Rattle.play_evidence.specs.Readings.{AddsAll, FindsAll};

use crate::number_finding::find_count;
use cards::OutOfMemory;
use certificate_graph::Node;
use std::alloc::Global;

/// Adds this many nodes, and returns the rest of the text.
fn push_nodes<'a>(
    alloc: Global,
    count: u8,
    text: &'a [u8],
    nodes: &mut Vec<Node>,
) -> Result<Option<&'a [u8]>, OutOfMemory>
    ensures { IfOk result (AddsAll IsBegun nodes_text count text.now nodes.old.items nodes.new.items) }
{
    if count == 0 {
        return Ok(Some(text));
    }
    let Some((node, rest)) = Node::read_line(alloc, text)? else {
        return Ok(None);
    };
    nodes.push(node)?;
    push_nodes(alloc, count - 1, rest, nodes)
}

/// Returns the begun nodes after their number, and the rest of the text.
pub(crate) fn find_begun(
    alloc: Global,
    text: &[u8],
) -> Result<Option<(Vec<Node>, &[u8])>, OutOfMemory>
    ensures { IfOk result (FindsAll (AreKept IsBegun) begun_text text.now) }
{
    let Some((count, rest)) = find_count(text, b"begun ") else {
        return Ok(None);
    };
    let mut nodes = Vec::new(alloc);
    let Some(rest) = push_nodes(alloc, count, rest, &mut nodes)? else {
        return Ok(None);
    };
    Ok(Some((nodes, rest)))
}
