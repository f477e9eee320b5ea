//! A section, as it is read.

ghost use Rattle.std.specs.Prelude.{IfOk};
ghost use Rattle.card_evidence.specs.Readings.{SaysCardSection};

use crate::claim_reading::read_claims;
use crate::sections::CardSection;
use crate::trick_reading::read_trick;
use cards::OutOfMemory;
use certificate_graph::CardBundle;
use evidence::read_graphs;
use std::alloc::Global;

/// Returns the section whose text it is, or none if it is the text of none. Fails only if memory runs out.
pub fn read_card_section(alloc: Global, text: &[u8]) -> Result<Option<CardSection>, OutOfMemory>
    ensures { IfOk result (SaysCardSection text.now) }
{
    let (trick, rest) = match read_trick(alloc, text) {
        Ok(Some(read)) => read,
        Ok(None) => return Ok(None),
        Err(fault) => return Err(fault),
    };
    let Some((claims, rest)) = read_claims(alloc, rest)? else {
        return Ok(None);
    };
    let Some((ns, ew)) = read_graphs(alloc, rest)? else {
        return Ok(None);
    };
    match CardSection::new(trick, CardBundle { ns, ew, claims }) {
        Ok(section) => Ok(Some(section)),
        Err(_) => Ok(None),
    }
}
