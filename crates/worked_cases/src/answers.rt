//! The answer to a case, as it is written.

use std::alloc::{AllocError, Global};
use std::fmt::Display;

/// The text of an answer, and whether memory ran out while it was made. Then what was said is of no use, and
/// [`Answer::text`] has the fault: so nothing else has to return it.
#[derive(Drop)]
pub struct Answer {
    text: String,
    lacks_memory: bool,
}

impl Answer {
    /// Nothing is said yet.
    pub fn new(alloc: Global) -> Answer {
        Answer {
            text: String::new(alloc),
            lacks_memory: false,
        }
    }

    /// Takes note of the result of a call that takes memory.
    pub fn needs<E: Drop>(&mut self, given: Result<(), E>) {
        self.lacks_memory = self.lacks_memory || given.is_err();
    }

    /// Takes note that memory ran out.
    pub fn fails(&mut self) {
        self.lacks_memory = true;
    }

    /// Says a text.
    pub fn say(&mut self, text: &str) {
        let said = self.text.push_str(text);
        self.needs(said);
    }

    /// Says a value, as it is printed.
    pub fn show<T: Display + Drop>(&mut self, value: T) {
        let said = write!(self.text, "{value}");
        self.needs(said);
    }

    /// Says a character.
    pub fn spell(&mut self, letter: char) {
        let said = self.text.push(letter);
        self.needs(said);
    }

    /// What was said, if memory was enough.
    pub fn text(&self) -> Result<&str, AllocError> {
        if self.lacks_memory {
            Err(AllocError)
        } else {
            Ok(self.text.as_str())
        }
    }
}
