//! What of the work is done.

ghost use Rattle.std.specs.Prelude.{◌≡◌, ◌-◌};

use lease_book::ENTRIES;
use pbn_deals::{Board, MOST_BOARDS};

/// How many results a board has.
const RESULTS: u8 = ENTRIES as u8;

/// How many results are published, and of how many.
#[derive(Drop)]
pub(crate) struct Counts {
    /// Of each board that is the first with its deal.
    of_board: [u8; MOST_BOARDS],
    /// How many boards have the deal of that one. A result is published for all of them at once.
    sharing: [u16; MOST_BOARDS],
    /// Of all boards.
    pub(crate) published: u64,
    /// How many there may be: twenty of each board that has a deal.
    pub(crate) results: u64,
    /// How many boards have all of theirs.
    pub(crate) finished: u64,
    /// How many boards have a deal.
    pub(crate) boards: u64,
}

impl Counts {
    ghost use Rattle.std.specs.Prelude.{ℕ, ◌<◌, [], slice_index};
    ghost use Rattle.lease_book.specs.Keeping.{AreFirsts};
    ghost use Rattle.progress.specs.Counts.{AreCounted, IsBegun, AddsResult, with_one_more};

    /// Of no boards.
    pub(crate) const fn none() -> Counts
        ensures { AreCounted [] [] result }
    {
        Counts {
            of_board: [0; MOST_BOARDS],
            sharing: [0; MOST_BOARDS],
            published: 0,
            results: 0,
            finished: 0,
            boards: 0,
        }
    }

    /// Of these boards, before the work on them. For each there is the number of the first with its deal.
    pub(crate) fn begin(&mut self, boards: &[Board], firsts: &[usize])
        requires { AreFirsts boards.now firsts.now }
        ensures { IsBegun boards.now self.new }
    {
        *self = Counts::none();
        for (number, board) in boards.iter().enumerate() {
            if board.deal.is_some() {
                self.boards = self.boards.saturating_add(1);
                self.results = self.results.saturating_add(RESULTS as u64);
                self.share(firsts[number]);
            }
        }
    }

    /// One board more has the deal of this one.
    fn share(&mut self, first: usize)
        ensures sharing { (number : ℕ) → number < 4096
            → slice_index self.new.sharing number ≡ with_one_more self.old.sharing first number }
        ensures rest { self.new ≡ record self.old { sharing = self.new.sharing } }
    {
        if first < MOST_BOARDS {
            self.sharing[first] = self.sharing[first].saturating_add(1);
        }
    }

    /// A result of this board was published, and so of all that share its deal.
    pub(crate) fn publish(&mut self, board: usize)
        ensures { AddsResult self.old self.new board }
    {
        if board >= MOST_BOARDS {
            return;
        }
        let sharing = self.sharing[board] as u64;
        self.published = self.published.saturating_add(sharing);
        let now = self.of_board[board].saturating_add(1);
        self.of_board[board] = now;
        if now == RESULTS {
            self.finished = self.finished.saturating_add(sharing);
        }
    }

    /// How many boards with a deal have not all of their results.
    pub(crate) fn incomplete(&self) -> u64
        ensures { result ≡ self.now.boards - self.now.finished }
    {
        self.boards.saturating_sub(self.finished)
    }
}
