//! Requests that a worker at a desk draws by a fixed run of numbers. Some are stale, repeated, damaged, for another's
//! lease or for another board, and the clock goes back at times.

use crate::fixed_numbers::next;
use crate::lease_tests::long_list::{pick, some_answer, some_entry};
use lease_book::{Entry, Reply};
use plain_runs::Request;
use std::alloc::{AllocError, Global};

/// What is wrong with answers, as `some_answer` has it: all but a text that is cut. The sixth is right at times.
const DAMAGES: [u64; 8] = [1, 2, 5, 6, 1, 7, 5, 6];

/// What a worker knows, and its last number.
#[derive(Drop)]
pub struct Worker {
    number: u64,
    /// The leases that it was given.
    own: Vec<(u64, Entry)>,
}

impl Worker {
    /// One that knows nothing.
    pub fn new(alloc: Global, number: u64) -> Worker {
        Worker {
            number,
            own: Vec::new(alloc),
        }
    }

    /// Remembers a lease that it is given.
    pub fn note(&mut self, reply: Reply) -> Result<(), AllocError> {
        if let Reply::Given { lease, entry, .. } = reply {
            self.own.push((lease, entry))?;
        }
        Ok(())
    }

    /// One of the last leases that it was given, with its entry.
    fn some_own(&self, choice: u64) -> Option<(u64, Entry)> {
        let back = 1 + choice as usize % 8;
        self.own.get(self.own.len().wrapping_sub(back)).copied()
    }

    /// A lease, and an entry to name under it: in nine of sixteen cases its own and mostly the right entry, in one a
    /// lease that is never given, and else any that may have been given.
    fn some_lease(&self, number: u64) -> (u64, Entry) {
        let choice = number / 16;
        let named = some_entry(choice);
        match (number % 16, self.some_own(choice), self.some_own(0)) {
            (0, _, _) => (u64::MAX - choice, named),
            (1, Some((lease, _)), _) => (lease, named),
            (2..=9, Some(own), _) => own,
            (_, _, Some((last, _))) => (1 + choice % last.max(1), named),
            _ => (choice % 4, named),
        }
    }

    /// The request of this step.
    pub fn draw(&mut self, alloc: Global, step: u64) -> Result<Request, AllocError> {
        self.number = next(self.number);
        let number = self.number;
        let now = (step / 2 + number / 128 % 40).saturating_sub(20);
        let other = next(number);
        let (lease, entry) = self.some_lease(other / 64);
        Ok(match number / 16 % 8 {
            0..=2 => Request::Lease { now },
            3 => Request::Expire { now },
            4 => Request::GiveUp { lease },
            _ => {
                let damage = pick(&DAMAGES, number / 256, 1);
                let number = damage.wrapping_add(next(other) / 64 % 1_048_576 * 9);
                some_answer(alloc, entry, number)?.hand_in(lease, entry)
            }
        })
    }
}
