//! Trees, as they are read. A tree has room for a few cards one below another, so that no text goes deep.

ghost use Rattle.std.specs.Prelude.{◌≡◌, ◌∷◌, ◌++◌, ◌+◌, ◌-◌, ◌<◌, ◌≤◌, length, slice_set, MatchOption, OnOk};
ghost use Rattle.certificate_graph.specs.Graphs.{card_place};
ghost use Rattle.certificate_graph.specs.Outcomes.{Ends};
ghost use Rattle.certificate_graph.specs.Readings.{BeginsBranches, LacksBranches};
ghost use Rattle.certificate_graph.specs.Readings.{BeginsTree, LacksTree, BeginsLeaf, LacksLeaf, BeginsOwn, LacksOwn};
ghost use Rattle.certificate_graph.specs.Readings.{BeginsReply, LacksReply};
ghost use Rattle.certificate_graph.specs.Rows.{tree_row, branches_row};
ghost use Rattle.certificate_graph.specs.Trees.{TrickTree, Branches};
ghost use Rattle.certificate_graph.specs.declared.rows.Token.TheVariants as token;

use crate::cursors::{Cursor, Stop};
use crate::forms::card_place;
use crate::leaf_reading::read_children;
use crate::rows::Token;
use crate::scanning::{after_byte, read_card};
use pattern_step::PatCard;
use std::alloc::AllocError;

/// Reads a tree with room for so many cards one below another, and puts it at the end of a row. Moves the cursor after
/// it, as each function here does after what it reads.
#[cycle(tree)]
pub(crate) fn read_tree(cursor: &mut Cursor<'_>, room: u8, row: &mut Vec<Token>) -> Result<(), Stop>
    ensures { Ends result
        (λ done. (tree : TrickTree) × BeginsTree room cursor.old.rest.now tree cursor.new.rest.now
        × (row.new.items ≡ row.old.items ++ tree_row tree))
        (LacksTree room cursor.old.rest.now) }
{
    let text = cursor.rest;
    if let Some(rest) = after_byte(text, b'{') {
        cursor.rest = rest;
        return read_leaf(cursor, row);
    }
    if room == 0 {
        return Err(Stop::Other);
    }
    if let Some(rest) = after_byte(text, b'(') {
        cursor.rest = rest;
        return read_reply(cursor, room - 1, row);
    }
    read_own(cursor, room - 1, row)
}

/// A leaf after its opening brace.
fn read_leaf(cursor: &mut Cursor<'_>, row: &mut Vec<Token>) -> Result<(), Stop>
    ensures { Ends result
        (λ done. (tree : TrickTree) × BeginsLeaf cursor.old.rest.now tree cursor.new.rest.now
        × (row.new.items ≡ row.old.items ++ tree_row tree))
        (LacksLeaf cursor.old.rest.now) }
{
    read_children(cursor, row)
}

/// A card of the side with what follows it.
#[cycle(tree)]
fn read_own(cursor: &mut Cursor<'_>, room: u8, row: &mut Vec<Token>) -> Result<(), Stop>
    ensures { Ends result
        (λ done. (tree : TrickTree) × BeginsOwn room cursor.old.rest.now tree cursor.new.rest.now
        × (row.new.items ≡ row.old.items ++ tree_row tree))
        (LacksOwn room cursor.old.rest.now) }
{
    let Some((card, rest)) = read_card(cursor.rest) else {
        return Err(Stop::Other);
    };
    let Ok(()) = row.push(Token::Own(card)) else {
        return Err(Stop::NoMemory);
    };
    cursor.rest = rest;
    read_tree(cursor, room, row)
}

/// The opponents' cards after the opening parenthesis, to the closing one.
#[cycle(tree)]
fn read_reply(cursor: &mut Cursor<'_>, room: u8, row: &mut Vec<Token>) -> Result<(), Stop>
    ensures { Ends result
        (λ done. (tree : TrickTree) × BeginsReply room cursor.old.rest.now tree cursor.new.rest.now
        × (row.new.items ≡ row.old.items ++ tree_row tree))
        (LacksReply room cursor.old.rest.now) }
{
    let Ok(()) = row.push(Token::Reply) else {
        return Err(Stop::NoMemory);
    };
    read_branches(cursor, room, 0, row)
}

/// Branches whose cards rise from this place on, to the closing parenthesis.
#[cycle(tree)]
fn read_branches(
    cursor: &mut Cursor<'_>,
    room: u8,
    least: u16,
    row: &mut Vec<Token>,
) -> Result<(), Stop>
    ensures { Ends result
        (λ done. (branches : Branches)
        × BeginsBranches room least cursor.old.rest.now branches cursor.new.rest.now
        × (row.new.items ≡ row.old.items ++ branches_row branches))
        (LacksBranches room least cursor.old.rest.now) }
{
    let text = cursor.rest;
    if let Some(rest) = after_byte(text, b')') {
        cursor.rest = rest;
        return Ok(());
    }
    let Some((card, rest)) = read_card(text) else {
        return Err(Stop::Other);
    };
    let Some(next) = next_place(card, least) else {
        return Err(Stop::Other);
    };
    cursor.rest = rest;
    match read_branch(cursor, room, card, row) {
        Ok(()) => read_branches(cursor, room, next, row),
        Err(stop) => Err(stop),
    }
}

/// The least place that a card after this one may have, where this one has at least this place itself.
fn next_place(card: PatCard, least: u16) -> Option<u16>
    ensures { MatchOption result (card_place card < least)
        (λ next. (least ≤ card_place card) × (next ≡ card_place card + 1)) }
{
    let place = card_place(card);
    if place < least {
        return None;
    }
    Some(place + 1)
}

/// What follows a card of the opponents, with the card before it.
#[cycle(tree)]
fn read_branch(
    cursor: &mut Cursor<'_>,
    room: u8,
    card: PatCard,
    row: &mut Vec<Token>,
) -> Result<(), Stop>
    ensures { Ends result
        (λ done. (below : TrickTree) × BeginsTree room cursor.old.rest.now below cursor.new.rest.now
        × (row.new.items ≡ row.old.items ++ token.Branch card (length (tree_row below)) ∷ tree_row below))
        (LacksTree room cursor.old.rest.now) }
{
    let place = row.len();
    let Ok(()) = row.push(Token::Branch(card, 0)) else {
        return Err(Stop::NoMemory);
    };
    match read_tree(cursor, room, row) {
        Ok(()) => match end_branch(row, place, card) {
            Ok(()) => Ok(()),
            Err(_) => Err(Stop::NoMemory),
        },
        Err(stop) => Err(stop),
    }
}

/// Says in the token of a branch, which stands in this place, how many tokens it has after it. There is no memory where
/// they are over 4,294,967,295.
fn end_branch(row: &mut Vec<Token>, place: usize, card: PatCard) -> Result<(), AllocError>
    requires { place < length row.old.items }
    ensures { OnOk result (row.new.items ≡ slice_set row.old.items place
        (token.Branch card (length row.old.items - (place + 1)))) }
{
    let Ok(count) = u32::try_from(row.len() - (place + 1)) else {
        return Err(AllocError);
    };
    row[place] = Token::Branch(card, count);
    Ok(())
}
