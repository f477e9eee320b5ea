//! The file of evidence that a search adds to: how it is opened, and what is added.
//!
//! [`open_evidence`] opens a file, once to be read and once to be added to. A [`Tail`] is its end. [`Keeping`] is a
//! solver around another one: it adds each answer of that solver to a tail, as the text of a section.
#![tactic(auto)]

mod access;
mod added;
mod attempts;
mod claims;
mod closed;
mod faults;
mod held;
mod keeping;
mod lengths;
mod moments;
mod opening;
mod pending;
mod syncs;
mod tails;
mod texts;

pub use access::Access;
pub use closed::Closed;
pub use faults::KeepFault;
pub use held::Held;
pub use keeping::Keeping;
pub use lengths::FileLength;
pub use opening::{Opened, open_evidence};
pub use tails::Tail;
