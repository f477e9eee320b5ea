//! Laws of the histories of a book. Nothing that runs rests on this crate.
#![tactic(auto)]

mod books;

pub use books::{
    finds_least_twin, gives_few_leases, leases_least_twins, may_give_up_unsettled, names_one_reply,
    nothing_is_left, publishes_first_good, publishes_once,
};
