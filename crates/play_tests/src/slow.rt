//! A slow search by the rules alone.

use cards::Side;
use play_rules::Table;

/// Whether a side takes `need` tricks at this table, with at most `cards` cards still to be played.
fn can_take(table: &Table, side: Side, need: u8, cards: u32) -> bool {
    if table.tricks(side) >= need {
        return true;
    }
    let Some(seat) = table.turn() else {
        return false;
    };
    if cards == 0 {
        return false;
    }
    let own = seat.side() == side;
    for card in table.legal().as_slice() {
        let mut next = table.clone().unwrap();
        if next.play(*card).is_ok() && can_take(&next, side, need, cards - 1) == own {
            return own;
        }
    }
    !own
}

/// How many tricks a side takes at this table, those that it has won among them. A hand has at most four cards.
pub fn slow_tricks(table: &Table, side: Side) -> u8 {
    let mut tricks = 0;
    for need in 1..5u8 {
        if can_take(table, side, need, 16) {
            tricks = need;
        }
    }
    tricks
}
