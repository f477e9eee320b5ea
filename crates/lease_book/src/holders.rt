//! By what boards with the same deal are found.

ghost use Rattle.std.specs.Prelude.{◌≡◌, ◌<◌, ◌≤◌, ℕ, List, IfOk, OnOk};
ghost use Rattle.indexmap.specs.IndexMap.{get};
ghost use Rattle.lease_book.specs.Holders.{holder_number, holders_of, are_same_holders, noted_or, noted_after};

use cards::{Card, Layout, Seat};
use indexmap::IndexMap;
use std::alloc::AllocError;

/// Who holds each card, by the cards' numbers.
pub(crate) type Holders = [u8; 52];

/// The number of a holder, from 1; 0 where nobody holds the card.
fn holder_number(holder: Option<Seat>) -> u8
    ensures { result ≡ holder_number holder }
{
    match holder {
        None => 0,
        Some(Seat::North) => 1,
        Some(Seat::East) => 2,
        Some(Seat::South) => 3,
        Some(Seat::West) => 4,
    }
}

/// The holders of a layout's cards.
fn holders_of(layout: &Layout) -> Holders
    ensures { result ≡ holders_of layout.now }
{
    layout.invariant();
    let mut holders = [0; 52];
    for number in 0..52 {
        holders[number] = holder_number(layout.owner(Card::at(number)));
    }
    holders
}

/// The number that was noted for this layout before, or else this number, which is noted for it.
pub(crate) fn note(
    noted: &mut IndexMap<Holders, usize>,
    layout: &Layout,
    number: usize,
) -> Result<usize, AllocError>
    ensures first { IfOk result (λ first. first
        ≡ noted_or (get are_same_holders noted.old (holders_of layout.now)) number) }
    ensures noted { OnOk result ((others : List ℕ) → get are_same_holders noted.new others
        ≡ noted_after (get are_same_holders noted.old (holders_of layout.now)) (holders_of layout.now) number others
        (get are_same_holders noted.old others)) }
{
    let holders = holders_of(layout);
    match noted.get(&holders) {
        Some(first) => Ok(*first),
        None => {
            noted.insert(holders, number)?;
            Ok(number)
        }
    }
}
