//! The lock under which it is changed which entries are open.

use std::sync::{Mutex, MutexGuard, Wait};

/// The lock of a round, beside the desk. The lender holds it while it leases a batch, and a solver while it gives up
/// the leases of a group. So no batch is leased while a part of a group is still to be given up.
#[derive(Drop)]
pub(crate) struct LeaseLock {
    taken: Mutex<()>,
}

/// The lock, held until this is dropped. Nobody else holds it.
#[derive(Drop)]
pub(crate) struct LeaseGuard<'a> {
    _taken: MutexGuard<'a, ()>,
}

impl LeaseLock {
    /// Makes the lock of a round. Nobody holds it.
    pub(crate) fn new() -> LeaseLock {
        LeaseLock {
            taken: Mutex::new(()),
        }
    }

    /// Waits until nobody else holds the lock.
    pub(crate) fn lock<R: Wait>(&self, rt: &R) -> LeaseGuard<'_> {
        LeaseGuard {
            _taken: self.taken.lock(rt),
        }
    }
}
