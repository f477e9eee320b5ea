//! What holds of the rules alone.

ghost use Rattle.text_laws.specs.LayoutsBack.{LayoutsAreReadBack};
ghost use Rattle.text_laws.specs.LayoutValue.{HasOneLayout, HasSomeLayout};
ghost use Rattle.text_laws.specs.LineBoards.{AreBoardsOfLines, TextsAreLines};
ghost use Rattle.text_laws.specs.Reading.{HasOneAnswer, HasSomeAnswer};
ghost use Rattle.text_laws.specs.TwoTexts.{TextsAreReadInTurn};

/// A text has one list of boards, or one first fault, and never two answers: so what
/// [`read_boards`](pbn_deals::read_boards) answers is the text's answer, unless memory runs out.
pub fn one_answer()
    ensures { HasOneAnswer }
{}

/// Every text has an answer, its boards or its first fault, and that memory runs out is none: a reader that answers so
/// leaves the text's answer out.
pub fn some_answer()
    ensures { HasSomeAnswer }
{}

/// Two texts with a blank line between them, the first of which ends outside a comment, have the boards of the first
/// and then those of the second, or the fault that comes first, its line counted on. At most 4,096 boards are those of
/// both.
pub fn texts_are_read_in_turn()
    ensures { TextsAreReadInTurn }
{}

/// Each text is read as lines with their ends, and each line as its pieces, in one way; with its byte order mark they
/// are all its bytes.
pub fn texts_are_lines()
    ensures { TextsAreLines }
{}

/// A Deal value alone says one layout, or has one fault, and never two: so what
/// [`read_layout`](pbn_deals::read_layout) answers is the value's answer.
pub fn one_layout()
    ensures { HasOneLayout }
{}

/// Every Deal value alone says a layout, or has a fault.
pub fn some_layout()
    ensures { HasSomeLayout }
{}

/// What [`write_layout`](pbn_deals::write_layout) writes is read back by [`read_layout`](pbn_deals::read_layout) as the
/// same layout.
pub fn layouts_are_read_back()
    ensures { LayoutsAreReadBack }
{}

/// The boards of a text are those that the tag pairs among the pieces of its lines say: so a text whose pieces differ
/// in nothing else has the same boards.
pub fn boards_are_of_lines()
    ensures { AreBoardsOfLines }
{}
