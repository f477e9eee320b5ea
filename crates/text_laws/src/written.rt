//! What holds of each text that `write_whole` writes.

ghost use Rattle.text_laws.specs.GivenEnds.{EndsAreGiven};
ghost use Rattle.text_laws.specs.Laws.{AreWrittenOne, KeepBoards, LoseNothing, ShowEachOnce, StayTheSame};

/// Of each text that is read as boards one text is written, whatever the results are.
pub fn one_is_written()
    ensures { AreWrittenOne }
{}

/// What is written of a text is read as the same boards, with the same names and deals.
pub fn boards_are_kept()
    ensures { KeepBoards }
{}

/// What is written of a text is written of itself too, with the same results: its tables stand where they stood, and
/// none twice.
pub fn tables_stay()
    ensures { StayTheSame }
{}

/// Without the tables that were put, and without the end that the last line may have got, what is written is the text
/// without its old tables, to the byte.
pub fn nothing_is_lost()
    ensures { LoseNothing }
{}

/// Read by its lines, what is written has in each game with a Deal tag, whose board has a deal, one table or one line
/// of how many results are known: its twenty numbers are the results.
pub fn tables_are_shown_once()
    ensures { ShowEachOnce }
{}

/// The lines that are written of a text are those of `specs/GivenEnds`: the last line that is left of a game gets an
/// end where it has none, and where that line has the Deal tag, the lines of the section get the same end.
pub fn ends_are_given()
    ensures { EndsAreGiven }
{}
