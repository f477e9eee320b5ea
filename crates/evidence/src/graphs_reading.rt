//! The graphs of a section, as they are read.

ghost use Rattle.std.specs.Prelude.{◌≡◌, ◌≢◌, IfOk, MatchOption};
ghost use Rattle.certificate_graph.specs.Graphs.{GraphShape, IsGraph};
ghost use Rattle.certificate_graph.specs.Texts.{graph_text};
ghost use Rattle.evidence.specs.SectionTexts.{graphs_text};

use cards::OutOfMemory;
use certificate_graph::{Graph, TextFault};
use memchr::memmem;
use std::alloc::Global;
use std::sync::Arc;

/// The end of a line, and an empty line.
const GAP: &[u8] = b"\n\n";

/// The graph whose text it is, if it is that of one. Fails only where memory runs out.
fn read_graph(alloc: Global, text: &[u8]) -> Result<Option<Arc<Graph>>, OutOfMemory>
    ensures { IfOk result (λ read. MatchOption read
        ((graph : GraphShape) → IsGraph graph → text.now ≢ graph_text graph)
        (λ graph. IsGraph graph.value × (text.now ≡ graph_text graph.value))) }
{
    let fault = match Graph::read(alloc, text) {
        Ok(graph) => return Ok(Some(Arc::new(alloc, graph)?)),
        Err(fault) => fault,
    };
    match fault {
        TextFault::OutOfMemory => Err(OutOfMemory),
        _ => Ok(None),
    }
}

/// Returns the two graphs whose texts these are, with an empty line between them, if they are. Fails only if memory
/// runs out.
pub fn read_graphs(
    alloc: Global,
    text: &[u8],
) -> Result<Option<(Arc<Graph>, Arc<Graph>)>, OutOfMemory>
    ensures { IfOk result (λ read. MatchOption read
        ((ns ew : GraphShape) → IsGraph ns → IsGraph ew → text.now ≢ graphs_text ns ew)
        (λ graphs. IsGraph graphs.0.value × IsGraph graphs.1.value
        × (text.now ≡ graphs_text graphs.0.value graphs.1.value))) }
{
    let Some(place) = memmem::find(text, GAP) else {
        return Ok(None);
    };
    let Some(ns) = read_graph(alloc, &text[..place + 1])? else {
        return Ok(None);
    };
    let Some(ew) = read_graph(alloc, &text[place + 2..])? else {
        return Ok(None);
    };
    Ok(Some((ns, ew)))
}
