//! The tables of a book of leases.

ghost use Rattle.std.specs.Prelude.{◌≡◌, [], length, IfOk};
ghost use Rattle.cards.specs.Devices.{Writes};
ghost use Rattle.tables.specs.TablesText.{printed_with, tables_text, complete_count};
ghost use Rattle.tournaments.specs.BookResults.{book_results};

use cards::{DeviceFault, Sink};
use lease_book::Book;
use tables::{Renews, Report};
use tournaments::BookResults;

/// Writes the tables of the book's boards with the numbers that its history publishes, and tells how many boards there
/// are and how many of them have all twenty. After a fault of the sink a beginning of the text has gone out. Takes no
/// memory.
pub fn write_tables<S: Sink>(book: &Book, sink: &mut S) -> Result<Report, DeviceFault>
    ensures writes { Writes (S.state sink.old) (S.state sink.new)
        (tables_text book.now.terms.boards
        (printed_with [] (book_results book.now.terms.boards book.now.events))) result }
    ensures boards { IfOk result (λ report. report.boards ≡ length book.now.terms.boards) }
    ensures complete { IfOk result (λ report. report.complete
        ≡ complete_count book.now.terms.boards
        (printed_with [] (book_results book.now.terms.boards book.now.events))) }
{
    let results = BookResults::new(book, Renews::Tables, &[]);
    tables::write_tables(&results, sink)
}
