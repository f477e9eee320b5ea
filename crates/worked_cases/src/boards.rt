//! Cases on PBN texts.

use crate::answers::Answer;
use crate::texts::{bytes_of, field, repeated, say_field, say_refusal};
use cards::{Buffer, Bytes};
use certificate_graph::Solver;
use lease_book::Book;
use pbn_deals::{Board, read_boards, read_layout};
use plain_runs::make_single;
use std::alloc::{AllocError, Global};
use tables::{Renews, Report};
use test_support::idle::StandsStill;
use text_laws::one_is_written;
use tournaments::{BookResults, MakeFault, take_boards};
use whole_texts::write_whole;

/// Room for the tables of a case.
const ROOM: usize = 4096;

/// Says each board, by its name, and whether it has a deal.
fn say_boards(boards: &[Board], out: &mut Answer) {
    out.say("boards");
    for board in boards {
        out.say(" |");
        say_field(board.name.as_bytes(), out);
        out.say(if board.deal.is_some() {
            " deal"
        } else {
            " none"
        });
    }
}

/// The boards of a text, or why it is refused.
pub fn answer_boards(alloc: Global, case: &str, out: &mut Answer) {
    let text = repeated(alloc, case, out);
    match read_boards(alloc, text.as_slice()) {
        Ok(boards) => say_boards(boards.as_slice(), out),
        Err(fault) => say_refusal(&fault, fault.line(), out),
    }
}

/// Whether a value of the Deal tag is a layout, or why it is refused.
pub fn answer_layout(alloc: Global, case: &str, out: &mut Answer) {
    let value = bytes_of(alloc, field(case, 1), out);
    match read_layout(value.as_slice()) {
        Ok(_) => out.say("layout"),
        Err(fault) => say_refusal(&fault, fault.line(), out),
    }
}

/// Says how many tables are complete.
fn say_report(report: Report, out: &mut Answer) {
    out.say("complete ");
    out.show(report.complete);
    out.say(" of ");
    out.show(report.boards);
}

/// Says how many tables are complete, how many events their book has, and their text.
fn say_tables(report: Report, events: usize, text: &[u8], out: &mut Answer) {
    say_report(report, out);
    out.say(", events ");
    out.show(events);
    out.say(" |");
    say_field(text, out);
}

/// The book and the report of a text by a solver, each entry of which is tried three times. The tables go to the sink.
fn made_of<S: Solver>(
    alloc: Global,
    solver: &S,
    text: &[u8],
    sink: &mut Buffer,
) -> Result<(Report, Book), MakeFault> {
    let mut source = Bytes::new(text, 7);
    make_single(
        alloc,
        &mut source,
        sink,
        600,
        3,
        10_000_000,
        solver,
        &StandsStill,
    )
}

/// Why nothing was made.
fn say_made_fault(fault: &MakeFault, out: &mut Answer) {
    match fault {
        MakeFault::Pbn(fault) => say_refusal(fault, fault.line(), out),
        _ => out.say("out of memory, or out of room"),
    }
}

/// Says how many tables are complete, and the text with them in it. The text was read before, and is read once more,
/// since only a text whose boards are read is written.
fn say_whole(alloc: Global, text: &[u8], book: &Book, sink: &mut Buffer, out: &mut Answer) {
    let Ok(_boards) = take_boards(alloc, text) else {
        return out.say("no boards");
    };
    one_is_written();
    let results = BookResults::new(book, Renews::Tables, &[]);
    match write_whole(text, &results, sink) {
        Ok(report) => {
            say_report(report, out);
            out.say(" |");
            say_field(sink.bytes(), out);
        }
        Err(_) => out.say("out of room"),
    }
}

/// Two sinks with room for the tables of a case.
fn sinks(alloc: Global) -> Result<(Buffer, Buffer), AllocError> {
    Ok((Buffer::new(alloc, ROOM, 5)?, Buffer::new(alloc, ROOM, 5)?))
}

/// The tables of a text by a solver, alone or in the text, or why there are none.
pub fn answer_page<S: Solver>(
    alloc: Global,
    solver: &S,
    whole: bool,
    case: &str,
    out: &mut Answer,
) {
    let text = repeated(alloc, case, out);
    let Ok((mut sink, mut page)) = sinks(alloc) else {
        return out.fails();
    };
    match made_of(alloc, solver, text.as_slice(), &mut sink) {
        Ok((_, book)) if whole => say_whole(alloc, text.as_slice(), &book, &mut page, out),
        Ok((report, book)) => say_tables(report, book.history().len(), sink.bytes(), out),
        Err(fault) => say_made_fault(&fault, out),
    }
}
