//! What is drawn at random, from a generator whose seed is fixed.

ghost use Rattle.std.specs.Prelude.{◌<◌, ◌≤◌};

use cards::{Layout, LayoutFault, Seat, Trump};
use rand_core::utils::NextWord;
use rand_pcg::Pcg32;

/// A number below the bound, from the next word.
pub fn draw_below(words: &mut Pcg32, bound: usize) -> usize
    requires { 0 < bound }
    ensures { result < bound }
{
    words.next_word() as usize % bound
}

/// A seat.
pub fn draw_seat(words: &mut Pcg32) -> Seat {
    Seat::ALL[draw_below(words, 4)]
}

/// A denomination.
pub fn draw_trump(words: &mut Pcg32) -> Trump {
    Trump::ALL[draw_below(words, 5)]
}

/// Four hands of `size` cards each, drawn from the first `pack` cards. `size` is at most a quarter of `pack`.
pub fn draw_layout(words: &mut Pcg32, pack: usize, size: usize) -> Result<Layout, LayoutFault>
    requires { pack ≤ 52 }
{
    let mut numbers = [0u32; 52];
    for place in 0..52usize {
        numbers[place] = place as u32;
    }
    let mut hands = [0u64; 4];
    for place in 0..pack.min(size.wrapping_mul(4)) {
        let chosen = place + draw_below(words, pack - place);
        numbers.swap(place, chosen);
        hands[place % 4] |= 1u64.wrapping_shl(numbers[place]);
    }
    Layout::from_hands(hands)
}
