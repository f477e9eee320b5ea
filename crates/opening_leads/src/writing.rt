//! The leads of boards as a text.

ghost use Rattle.std.specs.Prelude.{◌≡◌, ◌<◌, ◌≤◌, ◌^◌, ◌∷◌, codes, length};
ghost use Rattle.cards.specs.Devices.{Writes};
ghost use Rattle.cards.specs.Pack.{trump_letters};
ghost use Rattle.tables.specs.TablesText.{right_in_two, tag_line};
ghost use Rattle.opening_leads.specs.Leads.{with_values};
ghost use Rattle.opening_leads.specs.Tasks.{leads_in};
ghost use Rattle.opening_leads.specs.Texts.{row_text, known_row, declarer_rows, rows_text};
ghost use Rattle.opening_leads.specs.Texts.{known_text, incomplete_text, leads_tag, headed_text, section_text};
ghost use Rattle.opening_leads.specs.Texts.{board_text, leads_text};

use crate::counts::{CONTRACTS, count_rows};
use crate::rows::{Counted, Lack, LeadTable};
use card_values::{CardValue, write_groups};
use cards::{DeviceFault, Layout, Seat, Sink, Suit, Trump, write_all, write_number};
use pbn_deals::{Board, BoardName};
use tables::{DECLARERS, write_deal};

/// Returns the letters of a denomination, right in two places, after a blank.
fn right_letters(trump: Trump) -> &'static [u8; 3]
    ensures { result.now ≡ 32 ∷ right_in_two (trump_letters trump) }
{
    match trump {
        Trump::Nt => b" NT",
        Trump::Suit(Suit::Spades) => b"  S",
        Trump::Suit(Suit::Hearts) => b"  H",
        Trump::Suit(Suit::Diamonds) => b"  D",
        Trump::Suit(Suit::Clubs) => b"  C",
    }
}

/// Writes the row of a contract.
#[tactic(auto, unfolding(crate::specs::Texts::row_text))]
fn write_row<S: Sink>(
    sink: &mut S,
    declarer: Seat,
    trump: Trump,
    values: &[CardValue],
) -> Result<(), DeviceFault>
    ensures { Writes (S.state sink.old) (S.state sink.new) (row_text declarer trump values.now) result }
{
    write_all(sink, declarer.letter().as_bytes())?;
    write_all(sink, right_letters(trump))?;
    write_groups(sink, values)?;
    write_all(sink, b"\n")
}

/// Writes the row of a contract, if its leads are known.
fn write_known_row<S: Sink>(
    sink: &mut S,
    declarer: Seat,
    trump: Trump,
    row: Result<&[CardValue], Lack>,
) -> Result<(), DeviceFault>
    ensures { Writes (S.state sink.old) (S.state sink.new)
        (known_row declarer trump (with_values (λ values. values.now) row.entry)) result }
{
    match row {
        Ok(values) => write_row(sink, declarer, trump, values),
        Err(_) => Ok(()),
    }
}

/// Writes the rows of a declarer on a board, by its place from 0.
#[tactic(auto, unfolding(crate::specs::Texts::declarer_rows))]
fn write_declarer_rows<S: Sink>(
    sink: &mut S,
    table: &LeadTable,
    board: usize,
    declarer: Seat,
) -> Result<(), DeviceFault>
    requires { board < 2 ^ 32 }
    ensures { Writes (S.state sink.old) (S.state sink.new) (declarer_rows (leads_in table.now board) declarer) result }
{
    for trump in Trump::ALL {
        write_known_row(sink, declarer, trump, table.row(board, declarer, trump))?;
    }
    Ok(())
}

/// Writes the rows of a board, by its place from 0.
#[tactic(auto, unfolding(crate::specs::Texts::rows_text))]
fn write_rows<S: Sink>(sink: &mut S, table: &LeadTable, board: usize) -> Result<(), DeviceFault>
    requires { board < 2 ^ 32 }
    ensures { Writes (S.state sink.old) (S.state sink.new) (rows_text (leads_in table.now board)) result }
{
    for declarer in DECLARERS {
        write_declarer_rows(sink, table, board, declarer)?;
    }
    Ok(())
}

/// Writes how many rows are known.
#[tactic(auto, unfolding(crate::specs::Texts::known_text))]
fn write_known<S: Sink>(sink: &mut S, known: u8) -> Result<(), DeviceFault>
    ensures { Writes (S.state sink.old) (S.state sink.new) (known_text known) result }
{
    write_all(sink, b"; leads incomplete: ")?;
    write_number(sink, known as u64)?;
    write_all(sink, b" of 20\n")
}

/// Writes how many rows are known, unless all are.
fn write_incomplete<S: Sink>(sink: &mut S, known: u8) -> Result<(), DeviceFault>
    ensures { Writes (S.state sink.old) (S.state sink.new) (incomplete_text known) result }
{
    if known < CONTRACTS {
        write_known(sink, known)
    } else {
        Ok(())
    }
}

/// Writes the heading of the rows.
#[tactic(auto, unfolding(crate::specs::Texts::leads_tag))]
fn write_tag<S: Sink>(sink: &mut S) -> Result<(), DeviceFault>
    ensures { Writes (S.state sink.old) (S.state sink.new) leads_tag result }
{
    write_all(
        sink,
        b"[OpeningLeads \"Declarer;Denomination\\2R;Leads\"]\n",
    )
}

/// Writes the rows of a board below their heading, by its place from 0.
#[tactic(auto, unfolding(crate::specs::Texts::headed_text))]
fn write_headed<S: Sink>(sink: &mut S, table: &LeadTable, board: usize) -> Result<(), DeviceFault>
    requires { board < 2 ^ 32 }
    ensures { Writes (S.state sink.old) (S.state sink.new) (headed_text (leads_in table.now board)) result }
{
    write_tag(sink)?;
    write_rows(sink, table, board)?;
    write_incomplete(sink, count_rows(table, board, Counted::Known))
}

/// Writes the leads of a board, by its place from 0, if it has this deal.
fn write_section<S: Sink>(
    sink: &mut S,
    table: &LeadTable,
    board: usize,
    deal: &Option<Layout>,
) -> Result<(), DeviceFault>
    requires { board < 2 ^ 32 }
    ensures { Writes (S.state sink.old) (S.state sink.new) (section_text deal.now (leads_in table.now board)) result }
{
    match deal {
        Some(_) => write_headed(sink, table, board),
        None => Ok(()),
    }
}

/// Writes the Board tag.
fn write_name<S: Sink>(sink: &mut S, name: &BoardName) -> Result<(), DeviceFault>
    ensures { Writes (S.state sink.old) (S.state sink.new) (tag_line (codes "Board") name.now) result }
{
    write_all(sink, b"[Board \"")?;
    write_all(sink, name.as_bytes())?;
    write_all(sink, b"\"]\n")
}

/// Writes a board, by its place from 0.
#[tactic(auto, unfolding(crate::specs::Texts::board_text))]
fn write_board<S: Sink>(
    sink: &mut S,
    table: &LeadTable,
    place: usize,
    board: &Board,
) -> Result<(), DeviceFault>
    requires { place < 2 ^ 32 }
    ensures { Writes (S.state sink.old) (S.state sink.new) (board_text board.now (leads_in table.now place)) result }
{
    write_name(sink, &board.name)?;
    write_deal(sink, &board.deal)?;
    write_section(sink, table, place, &board.deal)?;
    write_all(sink, b"\n")
}

/// Writes the leads of the boards. If the sink fails, it has got a beginning of the text. Takes no memory.
#[tactic(auto, unfolding(crate::specs::Texts::leads_text))]
pub(crate) fn write_leads<S: Sink>(
    sink: &mut S,
    boards: &[Board],
    table: &LeadTable,
) -> Result<(), DeviceFault>
    requires { length boards.now ≤ 4096 }
    ensures { Writes (S.state sink.old) (S.state sink.new) (leads_text boards.now (leads_in table.now)) result }
{
    write_all(sink, b"% PBN 2.1\n")?;
    for (place, board) in boards.iter().enumerate() {
        write_board(sink, table, place, board)?;
    }
    Ok(())
}
