//! DDS's numbers of denominations.

ghost use Rattle.std.specs.Prelude.{◌≡◌, MatchOption};
ghost use Rattle.dds_calls.specs.Denominations.{IsNoDenomination, denomination_number};

use cards::{Suit, Trump};

/// Returns the denomination with this number: the suits in their order, and then no-trump.
pub(crate) fn denomination_of(number: i32) -> Option<Trump>
    ensures { MatchOption result (IsNoDenomination number) (λ trump. denomination_number trump ≡ number) }
{
    match number {
        0 => Some(Trump::Suit(Suit::Spades)),
        1 => Some(Trump::Suit(Suit::Hearts)),
        2 => Some(Trump::Suit(Suit::Diamonds)),
        3 => Some(Trump::Suit(Suit::Clubs)),
        4 => Some(Trump::Nt),
        _ => None,
    }
}
