//! The streams of a run.

/// The streams of a run of the program.
#[derive(Drop)]
pub struct Streams<I, O, E> {
    /// What is read.
    pub input: I,
    /// What is written.
    pub output: O,
    /// What faults are told on.
    pub errors: E,
}
