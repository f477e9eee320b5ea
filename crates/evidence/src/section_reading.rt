//! A section, as it is read.

ghost use Rattle.std.specs.Prelude.{IfOk};
ghost use Rattle.evidence.specs.Readings.{SaysSection};

use crate::graphs_reading::read_graphs;
use crate::head_reading::read_head;
use crate::section_writing::head_bytes;
use crate::sections::Section;
use cards::OutOfMemory;
use certificate_graph::{Bundle, after_prefix};
use std::alloc::Global;

/// The section whose text it is; none where it is the text of none. Fails only where memory runs out.
pub fn read_section(alloc: Global, text: &[u8]) -> Result<Option<Section>, OutOfMemory>
    ensures { IfOk result (SaysSection text.now) }
{
    let Some(head) = read_head(text) else {
        return Ok(None);
    };
    let lines = head_bytes(alloc, &head.layout, head.trump, head.claims.as_slice())?;
    let Some(rest) = after_prefix(text, lines.as_slice()) else {
        return Ok(None);
    };
    let Some((ns, ew)) = read_graphs(alloc, rest)? else {
        return Ok(None);
    };
    let bundle = Bundle {
        ns,
        ew,
        claims: head.claims,
    };
    match Section::new(head.layout, head.trump, bundle) {
        Ok(section) => Ok(Some(section)),
        Err(_) => Ok(None),
    }
}
