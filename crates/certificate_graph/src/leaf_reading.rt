//! The children of a leaf, as they are read.

ghost use Rattle.std.specs.Prelude.{◌≡◌, ◌++◌, List, ◌≤◌, MatchOption};
ghost use Rattle.certificate_graph.specs.Readings.{BeginsChild, LacksChild, BeginsMore, LacksMore, BeginsChildren};
ghost use Rattle.certificate_graph.specs.Readings.{LacksChildren};
ghost use Rattle.certificate_graph.specs.Outcomes.{Ends};
ghost use Rattle.certificate_graph.specs.Rows.{children_row};
ghost use Rattle.certificate_graph.specs.declared.children.Child.{Child};

use crate::children::Child;
use crate::cursors::{Cursor, Stop};
use crate::rows::Token;
use crate::scanning::{after_byte, read_number, read_seat};

/// A child, and the text after it.
#[inline(always)]
fn read_child(text: &[u8]) -> Option<(Child, &[u8])>
    ensures { MatchOption result (LacksChild text.now) (λ p. BeginsChild text.now p.0 p.1.now) }
{
    let Some((winner, rest)) = read_seat(text) else {
        return None;
    };
    let Some((number, rest)) = read_number(rest) else {
        return None;
    };
    Some((Child { winner, number }, rest))
}

/// Puts children that follow another one, whose seats rise from this number on, at the end of a row. Moves the cursor
/// after the closing brace.
fn read_more(cursor: &mut Cursor<'_>, least: usize, row: &mut Vec<Token>) -> Result<(), Stop>
    requires { least ≤ 4 }
    ensures { Ends result
        (λ done. (more : List Child) × BeginsMore least cursor.old.rest.now more cursor.new.rest.now
        × (row.new.items ≡ row.old.items ++ children_row more))
        (LacksMore least cursor.old.rest.now) }
{
    let text = cursor.rest;
    if let Some(rest) = after_byte(text, b'}') {
        cursor.rest = rest;
        return Ok(());
    }
    let Some(rest) = after_byte(text, b' ') else {
        return Err(Stop::Other);
    };
    let Some((child, rest)) = read_child(rest) else {
        return Err(Stop::Other);
    };
    let seat = child.winner.number();
    if seat < least {
        return Err(Stop::Other);
    }
    let Ok(()) = row.push(Token::Child(child.winner, child.number)) else {
        return Err(Stop::NoMemory);
    };
    cursor.rest = rest;
    read_more(cursor, seat + 1, row)
}

/// Puts the children of a leaf, whose seats rise, at the end of a row. Moves the cursor after the closing brace.
pub(crate) fn read_children(cursor: &mut Cursor<'_>, row: &mut Vec<Token>) -> Result<(), Stop>
    ensures { Ends result
        (λ done. (children : List Child) × BeginsChildren cursor.old.rest.now children cursor.new.rest.now
        × (row.new.items ≡ row.old.items ++ children_row children))
        (LacksChildren cursor.old.rest.now) }
{
    let text = cursor.rest;
    if let Some(rest) = after_byte(text, b'}') {
        cursor.rest = rest;
        return Ok(());
    }
    let Some((child, rest)) = read_child(text) else {
        return Err(Stop::Other);
    };
    let Ok(()) = row.push(Token::Child(child.winner, child.number)) else {
        return Err(Stop::NoMemory);
    };
    // most leaves have one child
    if let Some(rest) = after_byte(rest, b'}') {
        cursor.rest = rest;
        return Ok(());
    }
    cursor.rest = rest;
    read_more(cursor, child.winner.number() + 1, row)
}
