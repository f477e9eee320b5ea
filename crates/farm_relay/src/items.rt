//! What goes through the channel of a relay.

/// A message, or the mark that tells one taker that no more messages come.
#[derive(Drop)]
pub enum Item<T> {
    Message(T),
    EndMark,
}
