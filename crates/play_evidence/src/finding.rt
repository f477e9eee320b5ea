//! The parts of a section, as they are looked for.

ghost use Rattle.std.specs.Prelude.{IfOk};
ghost use Rattle.play_evidence.specs.Readings.{FindsBundle, FindsSection};

use crate::claim_finding::find_claims;
use crate::node_finding::find_begun;
use crate::play_finding::find_play;
use crate::sections::PlaySection;
use cards::OutOfMemory;
use evidence::read_graphs;
use play_claims::{PlayBundle, PlayNodes};
use std::alloc::Global;

/// Returns the claims and nodes of a text.
fn find_bundle(alloc: Global, text: &[u8]) -> Result<Option<PlayBundle>, OutOfMemory>
    ensures { IfOk result (FindsBundle text.now) }
{
    let Some((claims, rest)) = find_claims(alloc, text)? else {
        return Ok(None);
    };
    let Some((ns_begun, rest)) = find_begun(alloc, rest)? else {
        return Ok(None);
    };
    let Some((ew_begun, rest)) = find_begun(alloc, rest)? else {
        return Ok(None);
    };
    let Some((ns, ew)) = read_graphs(alloc, rest)? else {
        return Ok(None);
    };
    Ok(Some(PlayBundle {
        ns: PlayNodes {
            graph: ns,
            begun: ns_begun,
        },
        ew: PlayNodes {
            graph: ew,
            begun: ew_begun,
        },
        claims,
    }))
}

/// Returns the section of a text, if it is that of one. Other texts may have one too.
pub(crate) fn find_section(alloc: Global, text: &[u8]) -> Result<Option<PlaySection>, OutOfMemory>
    ensures { IfOk result (FindsSection text.now) }
{
    let Some((play, rest)) = find_play(text) else {
        return Ok(None);
    };
    let Some(bundle) = find_bundle(alloc, rest)? else {
        return Ok(None);
    };
    Ok(PlaySection::new(play.layout, play.leader, play.trump, play.cards, bundle))
}
