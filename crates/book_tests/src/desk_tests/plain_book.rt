//! The replies of a book by searches of two plain lists, of the leases given and of the entries published.

use crate::lease_tests::slow_book::{DECLARERS, TRUMPS};
use lease_book::{Asked, Entry, HandedIn, Reply};
use std::alloc::{AllocError, Global};

/// A lease that was given. Its number is its place among the leases, from 1.
#[derive(Clone, Copy)]
struct Lease {
    entry: Entry,
    deadline: u64,
    held: bool,
}

/// A book over boards that may have a deal.
#[derive(Drop)]
pub struct PlainBook<'a> {
    deals: &'a [bool],
    term: u64,
    tries: u64,
    leases: Vec<Lease>,
    published: Vec<Entry>,
}

/// The place of a lease among those that were given.
fn place_of(lease: u64) -> usize {
    lease.wrapping_sub(1) as usize
}

impl PlainBook<'_> {
    /// A book of which nothing was asked.
    pub fn new(alloc: Global, deals: &[bool], term: u64, tries: u64) -> PlainBook<'_> {
        PlainBook {
            deals,
            term,
            tries,
            leases: Vec::new(alloc),
            published: Vec::new(alloc),
        }
    }

    /// Whether an entry was published.
    fn is_published(&self, entry: Entry) -> bool {
        for published in &self.published {
            if *published == entry {
                return true;
            }
        }
        false
    }

    /// Whether an entry of a board with a deal is open.
    fn is_open(&self, entry: Entry) -> bool {
        let mut tries = 0u64;
        for lease in &self.leases {
            if lease.entry == entry {
                if lease.held {
                    return false;
                }
                tries = tries.saturating_add(1);
            }
        }
        tries < self.tries && !self.is_published(entry)
    }

    /// The first open entry of a board.
    fn open_on(&self, board: usize) -> Option<Entry> {
        for declarer in DECLARERS {
            for trump in TRUMPS {
                let entry = Entry {
                    board,
                    declarer,
                    trump,
                };
                if self.is_open(entry) {
                    return Some(entry);
                }
            }
        }
        None
    }

    /// The first open entry.
    fn first_open(&self) -> Option<Entry> {
        for (board, has_deal) in self.deals.iter().enumerate() {
            if *has_deal && let Some(entry) = self.open_on(board) {
                return Some(entry);
            }
        }
        None
    }

    /// Gives the first open entry.
    fn lease(&mut self, now: u64) -> Result<Reply, AllocError> {
        let Some(entry) = self.first_open() else {
            return Ok(Reply::Nothing);
        };
        let deadline = now.saturating_add(self.term);
        self.leases.push(Lease {
            entry,
            deadline,
            held: true,
        })?;
        Ok(Reply::Given {
            lease: self.leases.len() as u64,
            entry,
            deadline,
        })
    }

    /// Frees the leases that are held and past their deadlines.
    fn expire(&mut self, now: u64) -> Reply {
        let mut freed = 0u64;
        for lease in self.leases.iter_mut() {
            if lease.held && lease.deadline <= now {
                lease.held = false;
                freed = freed.saturating_add(1);
            }
        }
        Reply::Freed(freed)
    }

    /// Takes a lease back.
    fn give_up(&mut self, lease: u64) -> Reply {
        match self.leases.get_mut(place_of(lease)) {
            None => Reply::UnknownLease,
            Some(lease) if !lease.held => Reply::NotHeld,
            Some(lease) => {
                lease.held = false;
                Reply::GaveUp
            }
        }
    }

    /// Publishes what was shown for an entry, and frees its leases.
    fn publish(&mut self, entry: Entry, k: u8) -> Result<Reply, AllocError> {
        self.published.push(entry)?;
        for lease in self.leases.iter_mut() {
            if lease.entry == entry {
                lease.held = false;
            }
        }
        Ok(Reply::Published(k))
    }

    /// Takes what was handed in. What it shows is of the entry's own deal, declarer and denomination.
    fn hand_in(
        &mut self,
        lease: u64,
        entry: Entry,
        evidence: HandedIn,
    ) -> Result<Reply, AllocError> {
        let published = self.is_published(entry);
        match (self.leases.get_mut(place_of(lease)), evidence) {
            (None, _) => Ok(Reply::UnknownLease),
            (Some(given), _) if given.entry != entry => Ok(Reply::OtherEntry),
            _ if published => Ok(Reply::AlreadyPublished),
            (Some(given), HandedIn::Faulty(fault)) => {
                given.held = false;
                Ok(Reply::BadCertificate(fault))
            }
            (_, HandedIn::Shows(shown)) => self.publish(entry, shown.k),
        }
    }

    /// What is replied to the next request.
    pub fn reply(&mut self, asked: Asked) -> Result<Reply, AllocError> {
        match asked {
            Asked::Lease { now } => self.lease(now),
            Asked::Expire { now } => Ok(self.expire(now)),
            Asked::GiveUp { lease } => Ok(self.give_up(lease)),
            Asked::HandIn {
                lease,
                entry,
                evidence,
            } => self.hand_in(lease, entry, evidence),
        }
    }
}
