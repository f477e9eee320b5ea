//! A solver that remembers what it was asked.

use cards::{Layout, Seat, Suit, Trump};
use certificate_graph::{Bundle, Solver};
use std::alloc::{AllocError, Global};
use std::sync::{Mutex, Wait};

/// What a solver was asked.
#[derive(Debug, PartialEq, Drop)]
pub struct Call {
    pub layout: Layout,
    pub declarers: Vec<Seat>,
    pub trump: Trump,
    pub budget: u64,
}

/// A solver, with all that it was asked, in order.
#[derive(Drop)]
pub struct Remembers<'a, S, R> {
    rt: &'a R,
    solver: &'a S,
    calls: Mutex<Vec<Call>>,
}

impl<'a, S, R: Wait> Remembers<'a, S, R> {
    pub fn new(rt: &'a R, alloc: Global, solver: &'a S) -> Remembers<'a, S, R> {
        Remembers {
            rt,
            solver,
            calls: Mutex::new(Vec::new(alloc)),
        }
    }

    /// What it was asked.
    pub fn into_calls(self) -> Vec<Call> {
        let Remembers {
            rt: _,
            solver: _,
            calls,
        } = self;
        calls.into_inner()
    }
}

/// The digit of a denomination.
fn digit_of(trump: Trump) -> u64 {
    match trump {
        Trump::Nt => 1,
        Trump::Suit(Suit::Spades) => 2,
        Trump::Suit(Suit::Hearts) => 3,
        Trump::Suit(Suit::Diamonds) => 4,
        Trump::Suit(Suit::Clubs) => 5,
    }
}

/// How many declarers these are, or 9 where one is named twice.
fn count_of(declarers: &[Seat]) -> u64 {
    let mut count = 0u64;
    for seat in Seat::ALL {
        if declarers.contains(&seat) {
            count = count.wrapping_add(1);
        }
    }
    if declarers.len() as u64 == count {
        count
    } else {
        9
    }
}

/// The number of these digits before, and one more.
pub fn with_digit(digits: u64, digit: u64) -> u64 {
    digits.wrapping_mul(10).wrapping_add(digit)
}

/// The denominations of up to twenty calls as the digits of one number, no-trump, spades, hearts, diamonds and clubs
/// being 1 to 5, and how many declarers they were for, likewise.
pub fn digits_of(calls: &[Call]) -> (u64, u64) {
    let (mut trumps, mut declarers) = (0, 0);
    for call in calls {
        trumps = with_digit(trumps, digit_of(call.trump));
        declarers = with_digit(declarers, count_of(call.declarers.as_slice()));
    }
    (trumps, declarers)
}

/// How many calls were for all four declarers, and for fewer.
pub fn counts_of(calls: &[Call]) -> (u64, u64) {
    let (mut all, mut fewer) = (0u64, 0u64);
    for call in calls {
        if call.declarers.len() == Seat::ALL.len() {
            all = all.wrapping_add(1);
        } else {
            fewer = fewer.wrapping_add(1);
        }
    }
    (all, fewer)
}

impl<S: Solver, R: Wait> Solver for Remembers<'_, S, R> {
    fn solve(
        &self,
        alloc: Global,
        layout: &Layout,
        declarers: &[Seat],
        trump: Trump,
        budget: u64,
    ) -> Result<Option<Bundle>, AllocError> {
        let call = Call {
            layout: *layout,
            declarers: Vec::from_slice(alloc, declarers)?,
            trump,
            budget,
        };
        self.calls.lock(self.rt).push(call)?;
        self.solver.solve(alloc, layout, declarers, trump, budget)
    }
}
