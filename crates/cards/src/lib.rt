//! The pack, the seats of the table and the layout of a deal: what every other crate speaks of.
//!
//! A layout is four disjoint sets of equally many cards, 1 to 13 a seat (Law 1 of the Laws of Duplicate
//! Bridge 2017, and endings of it). Contracts see it as the list of who holds each card of the pack, and
//! know nothing of how it is stored. The crate also has the two traits by which bytes come in and go out,
//! each with a count of its failed calls, and their forms over memory.
#![tactic(auto)]

mod card_texts;
mod devices;
mod faults;
mod layouts;
mod memory;
mod numbers;
mod orders;
mod pack;
mod seats;
mod suits;

pub use card_texts::{rank_of, suit_of, write_card, write_cards};
pub use devices::{DeviceFault, Sink, Source, write_all};
pub use faults::OutOfMemory;
pub use layouts::{Layout, LayoutFault, holder_by_words};
pub use memory::{Buffer, Bytes};
pub use numbers::write_number;
pub use orders::{compare_by_number, equals_are_one, lists_are_in_order};
pub use pack::{Card, Rank};
pub use seats::{Seat, Side};
pub use suits::{Suit, Trump};
