//! Syncs of a file.

ghost use Rattle.std.specs.Prelude.{◌≡◌};

use crate::moments::Moment;
use std::fs::OpenFile;

/// A sync that was made. Only [`sync`] makes one, so what takes one comes after a call of the system.
#[derive(Drop)]
pub(crate) struct Synced {
    failed: bool,
}

/// Has the system write out what a file has got.
pub(crate) fn sync<F: OpenFile>(file: &F) -> Synced {
    Synced {
        failed: file.sync_data().is_err(),
    }
}

impl Synced {
    /// Whether it failed.
    pub(crate) fn failed(&self) -> bool
        ensures { result ≡ self.now.failed }
    {
        self.failed
    }
}

/// The moment of the last sync, in seconds. Another one comes only after another sync.
#[derive(Drop)]
pub(crate) struct LastSync {
    seconds: u64,
}

impl LastSync {
    /// No sync was made yet: the moment is 0.
    pub(crate) fn none() -> LastSync
        ensures { result.seconds ≡ 0 }
    {
        LastSync { seconds: 0 }
    }

    /// This sync was made at this moment.
    pub(crate) fn after(_done: &Synced, now: Moment) -> LastSync
        ensures { result.seconds ≡ now.seconds }
    {
        LastSync {
            seconds: now.seconds(),
        }
    }

    /// The moment.
    pub(crate) fn seconds(&self) -> u64
        ensures { result ≡ self.now.seconds }
    {
        self.seconds
    }
}
