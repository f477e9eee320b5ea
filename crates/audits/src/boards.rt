//! The board of a deal.

ghost use Rattle.std.specs.Prelude.{◌≡◌};
ghost use Rattle.lease_book.specs.Histories.{deal_of};
ghost use Rattle.lease_book.specs.Twins.{is_this_deal};
ghost use Rattle.audits.specs.Boards.{IsBoardWith};

use cards::Layout;
use lease_book::deal_on;
use pbn_deals::Board;

/// Whether the board of this number has this deal.
fn has_deal(boards: &[Board], number: usize, deal: &Layout) -> bool
    ensures { result ≡ is_this_deal deal.now (deal_of boards.now number) }
{
    match deal_on(boards, number) {
        Some(layout) => *deal == *layout,
        None => false,
    }
}

/// The number of the first board with this deal.
pub(crate) fn board_with(boards: &[Board], deal: &Layout) -> Option<usize>
    ensures { IsBoardWith boards.now deal.now result }
{
    for number in 0..boards.len() {
        if has_deal(boards, number, deal) {
            return Some(number);
        }
    }
    None
}
