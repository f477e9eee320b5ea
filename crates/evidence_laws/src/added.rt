//! A law of the texts that are added. It does nothing: its contract is the law.

ghost use Rattle.evidence_laws.specs.AddedLaws.{AddedSectionsAreParts};

/// If sections are added to a whole text whose last line has its end, the parts of the new text are those of the old
/// one, and then each section.
pub fn added_sections_are_parts()
    ensures { AddedSectionsAreParts }
{}
