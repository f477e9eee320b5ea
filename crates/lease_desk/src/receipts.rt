//! What a caller of the desk is told.

use lease_book::Event;

/// What a call was told: its event, and where the event stands in the history.
#[derive(Clone, Copy, Debug, PartialEq)]
pub struct Receipt {
    /// The place of the event in the history, from 0.
    pub place: u64,
    /// The call's request, with the reply.
    pub event: Event,
}
