//! DDS's numbers of seats.

ghost use Rattle.std.specs.Prelude.{◌≡◌, pos, MatchOption};
ghost use Rattle.cards.specs.Seats.{seat_number};
ghost use Rattle.dds_calls.specs.Seats.{IsNoSeat};

use cards::Seat;

/// Returns the seat with this number, clockwise from North.
pub(crate) fn seat_of(number: i32) -> Option<Seat>
    ensures { MatchOption result (IsNoSeat number) (λ seat. pos (seat_number seat) ≡ number) }
{
    match number {
        0 => Some(Seat::North),
        1 => Some(Seat::East),
        2 => Some(Seat::South),
        3 => Some(Seat::West),
        _ => None,
    }
}
