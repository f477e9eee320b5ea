//! What is printed, and what is told of it.

ghost use Rattle.std.specs.Prelude.{◌≡◌, ◌≤◌, ℕ, List, Option, IfSome, option_map};
ghost use Rattle.tables.specs.ParText.{IsSmallPar};

use crate::pars::BoardPar;
use cards::{Seat, Trump};
use pbn_deals::Board;

/// Boards with the results that are known of them, and with their pars, if these are printed.
pub trait Results {
    ghost use Rattle.std.specs.Prelude.{ℕ, List};
    ghost use Rattle.tables.specs.TablesText.{Printed};
    ghost use Rattle.pbn_deals.specs.declared.boards.Board as board;
    ghost use Rattle.tables.specs.declared.results.Renews as renews;

    /// The boards, in their order.
    ghost boards_of: { Self → List board.Board };

    /// Which old parts of a text are written anew.
    ghost renews_of: { Self → renews.Renews };

    /// What is printed of a board, by its place from 0.
    ghost printed_of: { Self → ℕ → Printed };

    /// Which old parts of a text are written anew.
    fn renews(&self) -> Renews
        ensures { result ≡ renews_of self.now };

    /// The boards, in the order in which they are printed.
    fn boards(&self) -> &[Board]
        ensures { result.now ≡ boards_of self.now };

    /// The result of a board, by its place from 0, where it is known: at most 13 tricks.
    fn result(&self, board: usize, declarer: Seat, trump: Trump) -> Option<u8>
        ensures value { result ≡ (printed_of self.now board).results declarer trump }
        ensures at_most_13 { IfSome result (λ tricks. tricks ≤ 13) };

    /// The par of a board, by its place from 0, if it is printed.
    fn par(&self, board: usize) -> Option<&BoardPar>
        ensures value { option_map (λ par. par.now) result ≡ (printed_of self.now board).par }
        ensures small { IfSome result (λ par. IsSmallPar par.now) };
}

/// Which old parts of a text are written anew.
#[derive(Clone, Copy)]
pub enum Renews {
    /// The tables.
    Tables,
    /// The tables and the pars.
    TablesAndPars,
}

/// How many boards were printed, and how many of them with a complete table.
#[derive(Clone, Copy, Debug, PartialEq, Eq)]
pub struct Report {
    /// How many boards.
    pub boards: usize,
    /// How many of them with all twenty results.
    pub complete: usize,
}
