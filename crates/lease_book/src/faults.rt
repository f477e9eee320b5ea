//! Why there is no book.

/// Why no book was made: the first that applies.
#[derive(Clone, Copy, Debug, PartialEq, Eq)]
pub enum BookFault {
    /// There are more than 4,096 boards.
    TooManyBoards,
    /// The tries are not 1 to 1,000.
    Tries,
    /// Memory ran out.
    OutOfMemory,
}
