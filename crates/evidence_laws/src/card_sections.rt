//! Laws of sections of cards and their texts. Each is a function that does nothing: its contract is the law.

ghost use Rattle.evidence_laws.specs.CardLaws.{EachSectionHasOneText, NoTextHasTwoSections, SectionsAreReadBack};

/// Each section of cards has exactly one text.
pub fn one_card_text()
    ensures { EachSectionHasOneText }
{}

/// No text is that of two sections of cards.
pub fn one_card_section()
    ensures { NoTextHasTwoSections }
{}

/// [`read_card_section`](card_evidence::read_card_section) reads what
/// [`write_card_section`](card_evidence::write_card_section) writes of a section as that section, unless memory runs
/// out.
pub fn card_sections_are_read_back()
    ensures { SectionsAreReadBack }
{}
