//! What is remembered from one call to the next: the searches of calls that have ended, each of one deal in one
//! denomination.

use cards::{Layout, Trump};
use partition_search::Search;
use pattern_store::MOST_BLOCKS;
use std::alloc::{AllocError, Global};
use std::sync::atomic::AtomicU32;
use std::sync::atomic::Ordering::SeqCst;
use std::sync::{Mutex, MutexGuard};
use std::thread;

/// How many searches are kept for each thread: as many as a deal has denominations.
const MOST_KEPT: usize = 5;

/// How often the lock is tried. Who has it looks through the list, and moves one search.
const TRIES: u32 = 1_000;

/// The searches that no call has in use.
#[derive(Drop)]
pub(crate) struct Memory {
    /// In the order in which they were kept, the oldest first.
    kept: Mutex<Option<Vec<Search>>>,
    /// How many calls are under way.
    calls: AtomicU32,
    /// How many there were at once, at most.
    most_calls: AtomicU32,
}

/// Where the search of this deal in this denomination lies. Where there are several, the one that remembers most.
fn place_of(searches: &Vec<Search>, layout: &Layout, trump: Trump) -> Option<usize> {
    let mut best = None;
    let mut most = 0;
    for (place, search) in searches.iter().enumerate() {
        let size = search.records.size();
        if size > most && search.deal.has_trump(trump) && search.deal.is_of(layout) {
            most = size;
            best = Some(place);
        }
    }
    best
}

/// How much room the searches take, in blocks.
fn room_of(searches: &Vec<Search>) -> usize {
    let mut held = 0usize;
    for search in searches.iter() {
        held = held.saturating_add(search.records.size());
    }
    held
}

/// Takes out the search in this place, if there is one.
fn taken_at(searches: &mut Vec<Search>, place: usize) -> Option<Search> {
    if place < searches.len() {
        Some(searches.remove(place))
    } else {
        None
    }
}

impl Memory {
    /// Nothing is remembered.
    pub(crate) const fn new() -> Memory {
        Memory {
            kept: Mutex::new(None),
            calls: AtomicU32::new(0),
            most_calls: AtomicU32::new(0),
        }
    }

    /// Counts a call that begins.
    pub(crate) fn enter(&self) {
        let others = self.calls.fetch_add(1, SeqCst);
        self.most_calls.fetch_max(others.saturating_add(1), SeqCst);
    }

    /// Counts a call that ends.
    pub(crate) fn leave(&self) {
        self.calls.fetch_sub(1, SeqCst);
    }

    /// For how many threads there is room: as many as called at once.
    fn threads(&self) -> usize {
        self.most_calls.load(SeqCst) as usize
    }

    /// The room for what is kept and what runs, in blocks: for one thread what the records of a search may take, and
    /// half as much for each where there are more.
    fn room(&self) -> usize {
        self.threads().max(2).saturating_mul(MOST_BLOCKS / 2)
    }

    /// The kept searches. None where others have them at each try.
    fn locked(&self) -> Option<MutexGuard<'_, Option<Vec<Search>>>> {
        for _ in 0..TRIES {
            if let Some(kept) = self.kept.try_lock() {
                return Some(kept);
            }
            thread::yield_now();
        }
        None
    }

    /// The search of this deal in this denomination: one that is kept, else a new one. It has its part of the room that
    /// the kept ones leave. They are dropped where this one could not remember all that it found.
    pub(crate) fn search_of(
        &self,
        alloc: Global,
        layout: &Layout,
        trump: Trump,
    ) -> Result<Search, AllocError> {
        let mut search = match self.taken(layout, trump) {
            Some(search) => search,
            None => Search::new(alloc, layout, trump)?,
        };
        let mut most = self.room() / 2;
        if search.records.is_full() {
            search = Search::new(alloc, layout, trump)?;
            most = 0;
        }
        let held = self.shrink(most);
        let room = self.room().saturating_sub(held) / self.threads().max(1);
        search.records.set_room(room);
        Ok(search)
    }

    /// Takes out the search of this deal in this denomination, if it is kept.
    fn taken(&self, layout: &Layout, trump: Trump) -> Option<Search> {
        let mut kept = self.locked()?;
        let searches = kept.as_mut()?;
        let place = place_of(searches, layout, trump)?;
        taken_at(searches, place)
    }

    /// Drops the oldest until they are no more than may be kept beside another and take at most so many blocks, and
    /// answers how many those are. Nothing is dropped under the lock, since that may take long.
    pub(crate) fn shrink(&self, most: usize) -> usize {
        let mut held = most;
        for _ in 0..self.threads().saturating_mul(2 * MOST_KEPT) {
            let (now, oldest) = self.surplus(most);
            held = now;
            if oldest.is_none() {
                break;
            }
        }
        held
    }

    /// How many blocks the kept searches take, and the oldest of them, taken out, where they are too many or take more
    /// than this. Where the lock can't be had, they are taken for as many as may be.
    fn surplus(&self, most: usize) -> (usize, Option<Search>) {
        let Some(mut kept) = self.locked() else {
            return (most, None);
        };
        let Some(searches) = kept.as_mut() else {
            return (0, None);
        };
        let held = room_of(searches);
        if held <= most && searches.len() < self.threads().saturating_mul(MOST_KEPT) {
            return (held, None);
        }
        (held, taken_at(searches, 0))
    }

    /// Keeps a search for a later call. It is dropped where the lock can't be had.
    pub(crate) fn keep(&self, search: Search) {
        let alloc = search.alloc;
        if let Some(mut kept) = self.locked() {
            let _ = kept.get_or_insert(Vec::new(alloc)).push(search);
        }
    }
}
