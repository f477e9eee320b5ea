//! The text of an answer.

ghost use Rattle.std.specs.Prelude.{◌≡◌};
ghost use Rattle.evidence.specs.Sections.{kept_of};
ghost use Rattle.evidence_solvers.specs.Kept.{IsKeptText, is_text};

use crate::faults::KeepFault;
use cards::{Layout, OutOfMemory, Trump};
use certificate_graph::Bundle;
use evidence::bundle_bytes;
use std::alloc::Global;

/// The most bytes that the text of a section may have, so that it can be read again: 512 MiB.
const MOST_BYTES: usize = 536_870_912;

/// The text of the section of an answer, or why there is none. Only [`kept_text`] makes one.
#[derive(Drop)]
pub(crate) struct KeptText {
    text: Result<Option<Vec<u8>>, KeepFault>,
}

impl KeptText {
    /// Whether there is a text.
    pub(crate) fn is_text(&self) -> bool
        ensures { result ≡ is_text self.now.text }
    {
        matches!(&self.text, Ok(Some(_)))
    }

    /// The text, if there is one.
    pub(crate) fn into_text(self) -> Result<Option<Vec<u8>>, KeepFault>
        ensures { result ≡ self.text }
    {
        let KeptText { text } = self;
        text
    }
}

/// The text of the section of an answer. There is none if the answer has no claim.
pub(crate) fn kept_text(alloc: Global, layout: &Layout, trump: Trump, bundle: &Bundle) -> KeptText
    ensures { IsKeptText (kept_of layout.now trump bundle.now) result.text }
{
    KeptText {
        text: text_of(alloc, layout, trump, bundle),
    }
}

/// The text of the section of an answer. Fails if memory runs out, if the answer is no section, and if the text is too
/// long to be read again.
fn text_of(
    alloc: Global,
    layout: &Layout,
    trump: Trump,
    bundle: &Bundle,
) -> Result<Option<Vec<u8>>, KeepFault>
    ensures { IsKeptText (kept_of layout.now trump bundle.now) result }
{
    if bundle.claims.is_empty() {
        return Ok(None);
    }
    match bundle_bytes(alloc, layout, trump, bundle) {
        Ok(Some(text)) => {
            if text.len() > MOST_BYTES {
                return Err(KeepFault::TooLong);
            }
            Ok(Some(text))
        }
        Ok(None) => Err(KeepFault::TooLong),
        Err(OutOfMemory) => Err(KeepFault::OutOfMemory),
    }
}
