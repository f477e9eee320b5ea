//! The promise of a thread.

use crate::works::{Ended, Work};
use std::snapshot::Snapshot;
use std::thread::{Promise, PromisedHandle};

/// The promise that this work was done at this post. It has no bytes.
pub struct Keeps<P, W> {
    pub(crate) work: Snapshot<W>,
    pub(crate) post: Snapshot<P>,
}

impl<P, W> Drop for Keeps<P, W> {
    fn drop(self) {
        let Keeps { work: _, post: _ } = self;
    }
}

impl<P, F, W: Work<P, F>> Promise<Ended<P, F>> for Keeps<P, W> {
    ghost use Rattle.farm_threads.specs.Promises.{IsKept};

    ghost kept_by = { IsKept W.leaves W.ends };
}

/// A thread that works at a post.
pub type Thread<P, F, W> = PromisedHandle<Ended<P, F>, Keeps<P, W>>;
