//! What comes of a call.

use std::fmt;

/// What a call answers.
#[derive(Clone, Copy)]
pub enum Outcome {
    /// What it answers with ample memory.
    Answer,
    /// That memory ran out. What stands after it is as the call says.
    OutOfMemory,
    /// That a thread could not be started; nothing was written.
    NoThread,
    /// That nothing was found.
    Nothing,
    /// Tables that lack some numbers.
    Incomplete,
    /// Memory ran out, and the call that was made again gave the answer.
    AnswerAgain,
    /// Anything else.
    Wrong,
}

impl Outcome {
    /// What comes of this and of another call after it, each of which gives the answer or gives it when made again.
    pub fn and(self, other: Outcome) -> Outcome {
        match (self, other) {
            (Outcome::Answer, other) => other,
            (Outcome::AnswerAgain, Outcome::Answer | Outcome::AnswerAgain) => Outcome::AnswerAgain,
            _ => Outcome::Wrong,
        }
    }
}

/// What came of a call, and how many allocations after it went well until one was refused.
#[derive(Clone, Copy)]
pub enum Told {
    /// The one to be refused came before the call.
    Before,
    /// It came after the call.
    Called(Outcome, Option<u64>),
}

impl fmt::Display for Outcome {
    fn fmt<W: fmt::Write>(&self, f: &mut fmt::Formatter<W>) -> fmt::Result {
        f.write_str(match self {
            Outcome::Answer => "the answer",
            Outcome::OutOfMemory => "out of memory",
            Outcome::NoThread => "no thread",
            Outcome::Nothing => "nothing",
            Outcome::Incomplete => "incomplete",
            Outcome::AnswerAgain => "out of memory and then the answer",
            Outcome::Wrong => "WRONG",
        })
    }
}

impl fmt::Display for Told {
    fn fmt<W: fmt::Write>(&self, f: &mut fmt::Formatter<W>) -> fmt::Result {
        match self {
            Told::Before => f.write_str("before"),
            Told::Called(outcome, Some(left)) => write!(f, "{outcome}, {left} left"),
            Told::Called(outcome, None) => write!(f, "{outcome}"),
        }
    }
}
