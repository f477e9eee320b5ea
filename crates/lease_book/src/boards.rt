//! The boards of a book, and which of them have the same deal.

ghost use Rattle.std.specs.Prelude.{◌≡◌, ◌+◌, ◌<◌, length, IfOk, OnOk};
ghost use Rattle.std.specs.Option.{option_copied};
ghost use Rattle.indexmap.specs.IndexMap.{get};
ghost use Rattle.lease_book.specs.Twins.{deal_of, first_board, is_first};
ghost use Rattle.lease_book.specs.Holders.{are_same_holders, AreNoted};
ghost use Rattle.lease_book.specs.Keeping.{AreFirsts};

use crate::holders::{Holders, note};
use cards::Layout;
use indexmap::IndexMap;
use pbn_deals::Board;
use std::alloc::{AllocError, Global};
use std::marker::Model;

/// The boards of a book. Contracts see the list of them.
#[derive(Drop)]
pub(crate) struct Boards {
    boards: Vec<Board>,
    /// For each board the number of the first that has the same deal; its own where it has no deal.
    firsts: Vec<usize>,
}

impl Model for Boards {
    ghost use Rattle.std.specs.Prelude.{List};
    ghost use Rattle.pbn_deals.specs.declared.boards.Board.{Board};
    ghost use Rattle.lease_book.specs.Keeping.{AreFirsts};

    ghost Value = { List Board };

    ghost view = { λ all. all.boards.items };

    ghost invariant = { λ all. AreFirsts all.boards.items all.firsts.items };
}

/// The deal of a board, where it is there and has one.
pub fn deal_on(boards: &[Board], board: usize) -> Option<&Layout>
    ensures { option_copied result ≡ deal_of boards.now board }
{
    match boards.get(board) {
        Some(board) => board.deal.as_ref(),
        None => None,
    }
}

/// The number of the first board with the deal of this one, where the boards before it are noted. Notes this one too.
fn first_of(
    noted: &mut IndexMap<Holders, usize>,
    boards: &[Board],
    number: usize,
) -> Result<usize, AllocError>
    requires within { number < length boards.now }
    requires noted { AreNoted boards.now number (get are_same_holders noted.old) }
    ensures first { IfOk result (λ first. first ≡ first_board boards.now number) }
    ensures noted { OnOk result (AreNoted boards.now (number + 1) (get are_same_holders noted.new)) }
{
    match deal_on(boards, number) {
        Some(layout) => note(noted, layout, number),
        None => Ok(number),
    }
}

/// For each board the number of the first that has the same deal; its own where it has no deal. The boards are looked
/// at once, in their order.
pub fn first_boards(alloc: Global, boards: &[Board]) -> Result<Vec<usize>, AllocError>
    ensures { IfOk result (λ firsts. AreFirsts boards.now firsts.items) }
{
    let mut noted = IndexMap::new(alloc);
    let mut firsts = Vec::new(alloc);
    for number in 0..boards.len() {
        let first = first_of(&mut noted, boards, number)?;
        firsts.push(first)?;
    }
    Ok(firsts)
}

impl Boards {
    /// These boards.
    pub(crate) fn new(alloc: Global, boards: Vec<Board>) -> Result<Boards, AllocError>
        ensures { IfOk result (λ made. made ≡ boards.items) }
    {
        let firsts = first_boards(alloc, boards.as_slice())?;
        Ok(Boards { boards, firsts })
    }

    /// The boards, in their order.
    pub(crate) fn as_slice(&self) -> &[Board]
        ensures { result.now ≡ self.now }
    {
        self.boards.as_slice()
    }

    /// How many boards there are.
    pub(crate) fn len(&self) -> usize
        ensures { result ≡ length self.now }
    {
        self.boards.len()
    }

    /// The number of the first board with the deal of this one; of this one itself, where it has none or isn't there.
    pub(crate) fn first(&self, number: usize) -> usize
        ensures { result ≡ first_board self.now number }
    {
        match self.firsts.get(number) {
            Some(first) => *first,
            None => number,
        }
    }

    /// Whether this board has a deal, and no board before it has the same.
    pub(crate) fn is_first(&self, number: usize) -> bool
        ensures { result ≡ is_first self.now number }
    {
        match self.boards.get(number) {
            Some(board) => board.deal.is_some() && self.first(number) == number,
            None => false,
        }
    }
}
