//! What is asked of the search for a play.

/// What is asked of the search for a play.
#[derive(Clone, Copy, Debug, PartialEq, Eq)]
pub struct PlayQuery {
    /// How many steps the solver has for each number.
    pub budget: u64,
    /// Whether the evidence is kept. Then a number is known only if its evidence is.
    pub keeps: bool,
}
