//! What a side can win, and a plain search that finds it for short endings.
//!
//! A strategy is a finite map from whole histories of play to cards. A side can win a number of tricks if it has a
//! strategy that names a legal card at each of its turns and wins that many in every play that follows it. The
//! definitions know of no position, search or best move. The laws here make them usable.
#![tactic(auto)]

mod laws;
mod plain;

pub use laws::{
    each_side_wins_nothing, sides_win_no_more_than_all, tricks_are_shared, wins_against_each_card,
    wins_by_own_card, wins_fewer, wins_the_rest, wins_what_is_won,
};
pub use plain::{TooLarge, plain_value};
