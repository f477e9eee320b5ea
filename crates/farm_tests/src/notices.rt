//! A gate that keeps all that it is told.

use crate::remembers::with_digit;
use lease_book::{Entry, Gate, Reply};
use pbn_deals::Board;
use std::alloc::{AllocError, Global};
use std::sync::{Mutex, Wait};

/// What a gate was told.
#[derive(Debug, PartialEq, Drop)]
pub enum Notice {
    /// Work begins on so many boards. For each there is the number of the first that has its deal.
    Begins(usize, Vec<usize>),
    /// A solver is about to work on a lease.
    Solves(u64),
    /// The graphs for a lease are about to be checked.
    ChecksGraphs(u64),
    /// A claim under a lease is about to be checked.
    Checks(u64),
    /// An entry's number is known, or a claim for it was refused.
    Answers(Entry, Reply),
    /// All work has ended.
    Ends,
}

/// Keeps all that it is told, in order, as far as there is memory.
#[derive(Drop)]
pub struct KeepsNotices<'a, R> {
    rt: &'a R,
    alloc: Global,
    notices: Mutex<Vec<Notice>>,
}

impl<'a, R: Wait> KeepsNotices<'a, R> {
    pub fn new(rt: &'a R, alloc: Global) -> KeepsNotices<'a, R> {
        KeepsNotices {
            rt,
            alloc,
            notices: Mutex::new(Vec::new(alloc)),
        }
    }

    /// What it was told.
    pub fn into_notices(self) -> Vec<Notice> {
        let KeepsNotices {
            rt: _,
            alloc: _,
            notices,
        } = self;
        notices.into_inner()
    }

    fn keep(&self, notice: Notice) {
        let _ = self.notices.lock(self.rt).push(notice);
    }
}

impl<R: Wait> Gate for KeepsNotices<'_, R> {
    fn before_work(&self, boards: &[Board], firsts: &[usize]) {
        let Ok(firsts) = Vec::from_slice(self.alloc, firsts) else {
            return;
        };
        self.keep(Notice::Begins(boards.len(), firsts));
    }

    fn before_solve(&self, lease: u64) {
        self.keep(Notice::Solves(lease));
    }

    fn before_graphs(&self, lease: u64) {
        self.keep(Notice::ChecksGraphs(lease));
    }

    fn before_check(&self, lease: u64) {
        self.keep(Notice::Checks(lease));
    }

    fn after_check(&self, entry: Entry, reply: Reply) {
        self.keep(Notice::Answers(entry, reply));
    }

    fn after_work(&self) {
        self.keep(Notice::Ends);
    }
}

/// The place of a step on the way of a lease, from solver to checker and clerk, and the lease.
fn step_of(notice: &Notice) -> Option<(usize, u64)> {
    match notice {
        Notice::Solves(lease) => Some((0, *lease)),
        Notice::ChecksGraphs(lease) => Some((1, *lease)),
        Notice::Checks(lease) => Some((2, *lease)),
        _ => None,
    }
}

/// The leases of a board that solver, checker and clerk were told of, if there is one of each. For each there is a
/// number whose digits are the denominations in order, no-trump, spades, hearts, diamonds and clubs being 1 to 5, and
/// the sum of two to the power of each lease. Of twenty leases the sum says which they were.
pub fn leases_in(notices: &[Notice]) -> [(u64, u64); 3] {
    let mut leases = [(0u64, 0u64); 3];
    for notice in notices {
        if let Some((place, lease)) = step_of(notice)
            && let Some(told) = leases.get_mut(place)
        {
            // The leases of a board are in the order of the entries, so that each fifth is in the same denomination.
            told.0 = with_digit(told.0, lease.wrapping_sub(1) % 5 + 1);
            told.1 = told.1.wrapping_add(1 << (lease % 64));
        }
    }
    leases
}

/// The entries whose numbers became known or whose claims were refused, each with the reply, in their order.
pub fn answers_in(alloc: Global, notices: &[Notice]) -> Result<Vec<(Entry, Reply)>, AllocError> {
    let mut answers = Vec::new(alloc);
    for notice in notices {
        if let Notice::Answers(entry, reply) = notice {
            answers.push((*entry, *reply))?;
        }
    }
    Ok(answers)
}
