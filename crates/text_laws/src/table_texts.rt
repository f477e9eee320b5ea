//! What holds of the text of the tables alone.

ghost use Rattle.text_laws.specs.ReadBack.{AreReadBack, SaidBoardsAreReadBack};
ghost use Rattle.text_laws.specs.WrittenOnce.{TableTextsAreRead, PagesSayOneThing};

/// What is written of boards, whatever their results of at most 13 tricks, is read back by
/// [`read_boards`](pbn_deals::read_boards) as the same boards: at most 4,096, each with no deal or one of 13 cards a
/// hand, and with a name that a Board tag can hold (no line feed, no quote, no `#` at its beginning).
pub fn boards_are_read_back()
    ensures { AreReadBack }
{}

/// What is written of the boards that any text says, whatever their results of at most 13 tricks, is read back by
/// [`read_boards`](pbn_deals::read_boards) as the same boards.
pub fn said_boards_are_read_back()
    ensures { SaidBoardsAreReadBack }
{}

/// What is written of boards is read, line by line (`specs/PageReading.antt`), as one block a board, in their order,
/// and nothing else: its name, its deal, and twenty rows of which each declarer and denomination has one, with the
/// number known of it, or how many numbers are known. So each result stands once on the page. A board's name is one
/// that a Board tag can hold, its deal, if it has one, of 13 cards a hand, and each result at most 13 tricks.
pub fn table_texts_are_read()
    ensures { TableTextsAreRead }
{}

/// Two lists of boards that are written as the same bytes are the same boards, in the same order, and of each board the
/// numbers are the same where all twenty are known, and else as many are known.
pub fn pages_say_one_thing()
    ensures { PagesSayOneThing }
{}
