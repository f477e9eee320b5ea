//! What a reader finds on the pages of a tournament.
//!
//! `put_page` of `tournaments` promises the bytes of a page. The laws here say how these bytes are read: a page of
//! tables by its lines, a text with its tables by its games, and a sheet by its elements. Nothing that runs calls them.
#![tactic(auto)]

ghost use Rattle.page_laws.specs.TablesPages.{TablesPagesAreRead};
ghost use Rattle.page_laws.specs.WholePages.{WholePagesAreRead};
ghost use Rattle.page_laws.specs.SheetPages.{SheetPagesAreRead};
ghost use Rattle.page_laws.specs.Readings.{PutPagesAreRead, MadePagesAreRead};
ghost use Rattle.page_laws.specs.ReplayedTables.{ReplayedTablesAreRead};

/// Take the boards that a text says and a true history over them. Read line by line, their page is one block per board,
/// in their order, and nothing else. A block has the board's name, its deal, and twenty rows, one for each declarer and
/// denomination, with the double-dummy values of that deal; or it says how many of the twenty numbers are known. The
/// page, read as a text, has the dealers and the vulnerabilities from which its pars were taken.
///
/// [`make_single`](plain_runs::make_single), [`replay_tables`](plain_runs::replay_tables) and `make_tables` of
/// `board_subcommands` write such a page. On `Ok` their clauses give the text, the terms and the history.
pub fn tables_pages_are_read()
    ensures { TablesPagesAreRead }
{}

/// Take a text that is read as boards and a true history over them. The page with the tables in the text is read as the
/// same boards. Without its tables it is the text without its old ones, to the byte. Read line by line, each game whose
/// board has a deal shows the double-dummy values of that deal once, or how many of the twenty are known.
pub fn whole_pages_are_read()
    ensures { WholePagesAreRead }
{}

/// Take the boards that a text says and a true history over them. Read by its elements, their sheet is its head, with
/// one policy, and one block per board, in their order, and no other block. A block has the board's name. If the board
/// has a deal, it also has who deals and is vulnerable, in words and in the compass, each hand under its seat's letter,
/// and the double-dummy values of that deal, each once, and par, or how many of the twenty are known.
pub fn sheet_pages_are_read()
    ensures { SheetPagesAreRead }
{}

/// [`put_page`](tournaments::put_page) writes such a page, whatever page is asked for, or a beginning of one if the
/// sink fails.
pub fn put_pages_are_read()
    ensures { PutPagesAreRead }
{}

/// A function that makes a page of a text by a run with a true history makes such a page, or a beginning of one if the
/// sink fails.
pub fn made_pages_are_read()
    ensures { MadePagesAreRead }
{}

/// [`replay_tables`](plain_runs::replay_tables) writes a page of tables that is read so.
pub fn replayed_tables_are_read()
    ensures { ReplayedTablesAreRead }
{}
