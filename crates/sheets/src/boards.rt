//! A board on a sheet.

ghost use Rattle.cards.specs.Devices.{Writes};
ghost use Rattle.sheets.specs.Facts.{with_value};
ghost use Rattle.sheets.specs.ParShown.{par_shown};
ghost use Rattle.sheets.specs.declared.templates.TheConstants as template;
ghost use Rattle.sheets.specs.Boards.{hands_text, foot_text, dealt_text, dealt_or_nothing, board_text};

use crate::facts::write_facts;
use crate::hands::write_hand;
use crate::pars::write_par;
use crate::results::write_results;
use crate::templates::{BOARD, BOARD_END, FOOT, FOOT_END};
use crate::values::write_with;
use board_conditions::Conditions;
use cards::{DeviceFault, Layout, Seat, Sink, write_all};
use pbn_deals::Board;
use tables::Results;

/// Writes the four hands, clockwise from North.
pub fn write_hands<S: Sink>(sink: &mut S, layout: &Layout) -> Result<(), DeviceFault>
    ensures { Writes (S.state sink.old) (S.state sink.new) (hands_text layout.now) result }
{
    write_hand(sink, layout, Seat::North)?;
    write_hand(sink, layout, Seat::East)?;
    write_hand(sink, layout, Seat::South)?;
    write_hand(sink, layout, Seat::West)
}

/// Writes the par of a board, by its place from 0, if it is printed.
fn write_its_par<S: Sink, T: Results>(
    sink: &mut S,
    results: &T,
    place: usize,
) -> Result<(), DeviceFault>
    ensures { Writes (S.state sink.old) (S.state sink.new) (par_shown (T.printed_of results.now place).par) result }
{
    write_par(sink, results.par(place))
}

/// Writes the table and the par of a board, by its place from 0.
fn write_foot<S: Sink, T: Results>(
    sink: &mut S,
    results: &T,
    place: usize,
) -> Result<(), DeviceFault>
    ensures { Writes (S.state sink.old) (S.state sink.new) (foot_text (T.printed_of results.now place)) result }
{
    write_all(sink, FOOT)?;
    write_results(sink, results, place)?;
    write_its_par(sink, results, place)?;
    write_all(sink, FOOT_END)
}

/// Writes what is shown of a board with a deal.
fn write_dealt<S: Sink, T: Results>(
    sink: &mut S,
    results: &T,
    place: usize,
    layout: &Layout,
    conditions: Conditions,
) -> Result<(), DeviceFault>
    ensures { Writes (S.state sink.old) (S.state sink.new)
        (dealt_text layout.now conditions (T.printed_of results.now place)) result }
{
    write_facts(sink, conditions)?;
    write_hands(sink, layout)?;
    write_foot(sink, results, place)
}

/// Writes the beginning of a board, with its name.
fn write_name<S: Sink>(sink: &mut S, board: &Board) -> Result<(), DeviceFault>
    ensures { Writes (S.state sink.old) (S.state sink.new) (with_value template.BOARD.now board.now.name) result }
{
    write_with(sink, BOARD, board.name.as_bytes())
}

/// Writes what is shown of a board if it has a deal.
fn write_deal<S: Sink, T: Results>(
    sink: &mut S,
    results: &T,
    place: usize,
    board: &Board,
    conditions: Conditions,
) -> Result<(), DeviceFault>
    ensures { Writes (S.state sink.old) (S.state sink.new)
        (dealt_or_nothing board.now.deal conditions (T.printed_of results.now place)) result }
{
    match &board.deal {
        Some(layout) => write_dealt(sink, results, place, layout, conditions),
        None => Ok(()),
    }
}

/// Writes a board of the sheet, by its place from 0, which is played under these conditions. After a fault of the sink
/// a beginning of it has gone out. Takes no memory.
pub(crate) fn write_board<S: Sink, T: Results>(
    sink: &mut S,
    results: &T,
    place: usize,
    board: &Board,
    conditions: Conditions,
) -> Result<(), DeviceFault>
    ensures { Writes (S.state sink.old) (S.state sink.new)
        (board_text board.now conditions (T.printed_of results.now place)) result }
{
    write_name(sink, board)?;
    write_deal(sink, results, place, board, conditions)?;
    write_all(sink, BOARD_END)
}
