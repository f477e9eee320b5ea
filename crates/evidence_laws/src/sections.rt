//! Laws of sections and texts. Each is a function that does nothing: its contract is the law.

ghost use Rattle.evidence_laws.specs.Laws.{EachSectionHasOneText, NoTextHasTwoSections, SectionsAreReadBack};
ghost use Rattle.evidence_laws.specs.Parts.{TextsHaveOneRow, SectionsAreParts, PartsAreJoined};

/// Each section has exactly one text.
pub fn one_text()
    ensures { EachSectionHasOneText }
{}

/// No text belongs to two sections.
pub fn one_section()
    ensures { NoTextHasTwoSections }
{}

/// What [`write_section`](evidence::write_section) writes of a section, [`read_section`](evidence::read_section) reads
/// as that section, unless memory runs out.
pub fn sections_are_read_back()
    ensures { SectionsAreReadBack }
{}

/// A whole text has one row of parts at most: [`Sections`](evidence::Sections) hands them out, each of the first piece
/// of what is left.
pub fn one_row()
    ensures { TextsHaveOneRow }
{}

/// What is written of a section, where it isn't too long, is one part of a whole text: that section.
pub fn sections_are_parts()
    ensures { SectionsAreParts }
{}

/// Texts are joined part by part: the parts of a text that ends with the end of a line, and of one behind it that
/// begins with a title, are those of both together.
pub fn parts_are_joined()
    ensures { PartsAreJoined }
{}
