//! The rest of a play: what the whole tricks of its first cards leave.

ghost use Rattle.std.specs.Prelude.{◌≡◌, ◌≤◌, length, MatchOption};
ghost use Rattle.cards.specs.declared.seats.Side.TheVariants.{NorthSouth, EastWest};
ghost use Rattle.play_rules.specs.Legal.{cards_in_play};
ghost use Rattle.play_values.specs.PlayValues.{first_cards};
ghost use Rattle.play_values.specs.Rests.{IsRestAfter, tricks_won};

use crate::left_layouts::layout_left;
use crate::recordings::RecordedPlay;
use cards::{Layout, Seat, Side};

/// What whole tricks leave.
#[derive(Clone, Copy, Debug)]
pub struct Rest {
    /// The cards that they leave.
    pub layout: Layout,
    /// The seat that leads to the next trick.
    pub leader: Seat,
    /// How many of them North and South have won.
    pub north_south: u8,
    /// How many of them East and West have won.
    pub east_west: u8,
}

impl RecordedPlay {
    /// What the whole tricks of the first `count` cards leave. `None` if these are all cards of the layout.
    pub fn rest_after(&self, count: usize) -> Option<Rest>
        requires { count ≤ length self.now.position.history }
        ensures { MatchOption result
            (length (first_cards self.now count) ≡ cards_in_play self.now.position.opening)
            (IsRestAfter self.now.position.opening (first_cards self.now count)) }
    {
        self.invariant();
        let whole = count - count % 4;
        let table = self.table_after(whole);
        let Some(leader) = table.turn() else {
            return None;
        };
        Some(Rest {
            layout: layout_left(self.layout(), self.cards(), whole),
            leader,
            north_south: table.tricks(Side::NorthSouth),
            east_west: table.tricks(Side::EastWest),
        })
    }
}
