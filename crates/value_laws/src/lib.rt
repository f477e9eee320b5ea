//! Laws of double-dummy values and of par. Nothing that runs rests on this crate.
#![tactic(auto)]

mod layouts;
mod losses;
mod pars;
mod single_cards;
mod values_after;

pub use layouts::{plain_value_is_unique, plain_value_is_value, value_is_unique};
pub use losses::lines_say_losses;
pub use pars::{par_has_contracts, par_is_unique};
pub use single_cards::{best_card_is_value, card_value_is_unique, card_value_is_value_after};
pub use values_after::{
    play_value_is_value_after, value_after_is_unique, value_counts_tricks_won,
    value_is_value_after, wins_the_rest_after,
};
