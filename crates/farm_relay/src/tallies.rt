//! What a pass of a relay's channel knows. It exists in contracts alone.

use crate::items::Item;
use std::collections::LinkedList;

/// What a pass has put and taken, and its shares of the right to know the whole. No value of it is made.
pub struct Tally<T> {
    pub shares: u64,
    /// What was put, in order.
    pub put: LinkedList<Item<T>>,
    /// What was taken, in order.
    pub taken: LinkedList<Item<T>>,
}
