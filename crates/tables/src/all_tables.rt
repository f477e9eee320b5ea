//! The text of all boards with their tables.

ghost use Rattle.std.specs.Prelude.{◌≡◌, codes, length, IfOk};
ghost use Rattle.cards.specs.Devices.{Writes};
ghost use Rattle.tables.specs.TablesText.{tag_line, deal_value, board_text, tables_text, complete_count};

use crate::conditions::write_conditions;
use crate::pieces::write_pieces;
use crate::results::{Report, Results};
use crate::tables::{count_complete, write_section};
use cards::{DeviceFault, Layout, Sink, write_all};
use pbn_deals::{Board, write_layout};

/// Writes the Deal tag. If the sink fails, it has got a beginning of the line. Takes no memory.
pub fn write_deal<S: Sink>(sink: &mut S, deal: &Option<Layout>) -> Result<(), DeviceFault>
    ensures { Writes (S.state sink.old) (S.state sink.new) (tag_line (codes "Deal") (deal_value deal.now)) result }
{
    match deal {
        Some(layout) => {
            write_all(sink, b"[Deal \"")?;
            write_layout(sink, layout)?;
            write_all(sink, b"\"]\n")
        }
        None => write_all(sink, b"[Deal \"?\"]\n"),
    }
}

/// Writes a board.
fn write_board<S: Sink, T: Results>(
    sink: &mut S,
    results: &T,
    place: usize,
    board: &Board,
) -> Result<(), DeviceFault>
    ensures { Writes (S.state sink.old) (S.state sink.new)
        (board_text board.now (T.printed_of results.now place)) result }
{
    write_pieces(sink, &[b"[Board \"", board.name.as_bytes(), b"\"]\n"])?;
    write_deal(sink, &board.deal)?;
    write_conditions(sink, results.par(place))?;
    write_section(sink, results, place, b"\n")?;
    write_all(sink, b"\n")
}

/// Writes the tables of all boards, and tells how many boards there are and how many of their tables are
/// complete. After a fault of the sink a beginning of the text has gone out. Takes no memory.
pub fn write_tables<T: Results, S: Sink>(results: &T, sink: &mut S) -> Result<Report, DeviceFault>
    ensures writes { Writes (S.state sink.old) (S.state sink.new)
        (tables_text (T.boards_of results.now) (T.printed_of results.now)) result }
    ensures boards { IfOk result (λ report. report.boards ≡ length (T.boards_of results.now)) }
    ensures complete { IfOk result (λ report. report.complete
        ≡ complete_count (T.boards_of results.now) (T.printed_of results.now)) }
{
    write_all(sink, b"% PBN 2.1\n")?;
    let boards = results.boards();
    for (place, board) in boards.iter().enumerate() {
        write_board(sink, results, place, board)?;
    }
    Ok(Report {
        boards: boards.len(),
        complete: count_complete(results),
    })
}
