//! The joining of threads.

ghost use Rattle.std.specs.Prelude.{List, All, IfOk, OnOk};
ghost use Rattle.farm_threads.specs.Beside.{AreBeside};
ghost use Rattle.farm_threads.specs.Posts.{AreThreadsOf};
ghost use Rattle.farm_threads.specs.Promises.{HasEnded};

use crate::promises::Thread;
use crate::works::{Ended, Work};
use std::alloc::{AllocError, AllocFailed, Global};
use std::thread::{Promise, PromisedHandle, Threads};

/// Waits for a thread. On a fault of its work the post is dropped.
fn join<P: Drop, F: Drop, W: Work<P, F>, R: Threads>(
    rt: &R,
    thread: Thread<P, F, W>,
) -> Result<P, F>
    ensures { IfOk result (W.ends thread.promise.work.value thread.promise.post.value) }
{
    let Ended { post, outcome } = thread.join(rt);
    match outcome {
        Ok(()) => Ok(post),
        Err(fault) => Err(fault),
    }
}

/// Waits for threads in their order, and returns their posts as the work left them. It returns with the first fault:
/// the later threads are detached, and end with their scope.
pub fn join_each<
    P: Drop,
    F: From<AllocError> + From<AllocFailed<P>> + Drop,
    W: Work<P, F>,
    R: Threads,
>(rt: &R, alloc: Global, _work: &W, threads: Vec<Thread<P, F, W>>) -> Result<Vec<P>, F>
    ensures { (posts : List P) → AreThreadsOf _work.now posts threads.items
        → IfOk result (λ ended. AreBeside (W.ends _work.now) posts ended.items) }
{
    let mut ended = Vec::with_capacity(alloc, threads.len())?;
    for thread in threads {
        let post = join(rt, thread)?;
        ended.push(post)?;
    }
    Ok(ended)
}

/// Waits for all threads, and drops their results.
pub fn end_each<T: Drop, P: Promise<T>, R: Threads>(rt: &R, threads: Vec<PromisedHandle<T, P>>)
    ensures { All (HasEnded P.kept_by) threads.items }
{
    for thread in threads {
        let _ = thread.join(rt);
    }
}
