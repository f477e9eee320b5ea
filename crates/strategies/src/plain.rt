//! A plain search, for endings of at most four cards per hand.

ghost use Rattle.std.specs.Prelude.{◌≡◌, ◌+◌, ◌-◌, ◌≤◌, ◌↔◌, IsOk, IfOk, MatchBool};
ghost use Rattle.cards.specs.Deal.{size_of};
ghost use Rattle.cards.specs.declared.seats.Side.TheVariants.{NorthSouth, EastWest};
ghost use Rattle.strategies.specs.Strategies.{CanWin};
ghost use Rattle.strategies.specs.Values.{IsPlainValue};

use cards::{Layout, Seat, Side, Trump};
use play_rules::Table;
use thiserror::Error;

/// The most cards that a hand may have, since every line of play is tried.
const LARGEST: usize = 4;

/// The refusal of a layout with more than 4 cards per hand.
#[derive(Clone, Copy, Debug, PartialEq, Eq, Error)]
#[error("more than 4 cards a hand")]
pub struct TooLarge;

/// Returns how many tricks North and South can win if this seat leads; East and West can win the others. Returns
/// `TooLarge` exactly if a hand has more than 4 cards. Takes no memory.
pub fn plain_value(layout: &Layout, leader: Seat, trump: Trump) -> Result<u8, TooLarge>
    ensures value { IfOk result (IsPlainValue (record { deal = layout.now; leader = leader; trump = trump })) }
    ensures too_large { IsOk result ↔ (size_of layout.now ≤ 4) }
{
    let size = layout.len();
    if size > LARGEST {
        return Err(TooLarge);
    }
    let size = size as u8;
    let table = Table::new(*layout, leader, trump);
    for value in 0..size {
        if !can_take(&table, size, value + 1) {
            return Ok(value);
        }
    }
    Ok(size)
}

/// Returns whether North and South can win this many tricks, including those won so far. If they can't, East and West
/// can win more than the others.
fn can_take(table: &Table, size: u8, wanted: u8) -> bool
    requires { size ≡ size_of table.now.opening.deal }
    ensures { MatchBool result
        (CanWin table.now.opening NorthSouth wanted table.now.history)
        (CanWin table.now.opening EastWest (size_of table.now.opening.deal + 1 - wanted) table.now.history) }
{
    let turn = table.turn();
    if table.tricks(Side::NorthSouth) >= wanted {
        return true;
    }
    if table.tricks(Side::EastWest) >= (size + 1).saturating_sub(wanted) {
        return false;
    }
    let Some(seat) = turn else { unreachable!() };
    let own = seat.side() == Side::NorthSouth;
    let cards = table.legal();
    for card in cards.as_slice() {
        if can_take(&table.after(*card), size, wanted) == own {
            return own;
        }
    }
    !own
}
