//! Allocations that are made around a call.

use std::alloc::{AllocError, Global};

/// How many allocations are made before a call, and how many after it at most.
#[derive(Clone, Copy)]
pub struct Spending {
    before: u64,
    most: u64,
}

/// The number that a word of the line is; 0 where it is none.
fn number(line: &str, place: usize) -> u64 {
    let word = line.split(' ').nth(place).unwrap_or("");
    word.parse::<u64>().unwrap_or(0)
}

/// Makes an allocation, and gives it back.
fn allocate(alloc: Global) -> Result<(), AllocError> {
    let _room: Vec<u8> = Vec::with_capacity(alloc, 1)?;
    Ok(())
}

impl Spending {
    /// The numbers that stand after the first word of a line.
    pub fn of_words(line: &str) -> Spending {
        Spending {
            before: number(line, 1),
            most: number(line, 2),
        }
    }

    /// Makes those before the call.
    pub fn spend(self, alloc: Global) -> Result<(), AllocError> {
        for _turn in 0..self.before {
            allocate(alloc)?;
        }
        Ok(())
    }

    /// Makes those after it, and says how many went well until one was refused, if one was.
    pub fn left(self, alloc: Global) -> Option<u64> {
        for turn in 0..self.most {
            if allocate(alloc).is_err() {
                return Some(turn);
            }
        }
        None
    }
}
