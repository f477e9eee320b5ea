//! The starting of threads.

ghost use Rattle.std.specs.Prelude.{◌≡◌, [], All, IfSome, OnOk};
ghost use denote.Param.Send.{IsSync};
ghost use Rattle.farm_threads.specs.Posts.{IsThreadOf, AreThreadsOf};

use crate::halts::Halt;
use crate::promises::{Keeps, Thread};
use crate::works::{Ended, Work};
use core::thread::Stack;
use std::snapshot::Snapshot;
use std::sync::Wait;
use std::thread::{Scope, Threads};

/// How many bytes of stack a thread gets, whatever the process's limit is. What a search needs most of is a call for
/// each card of the deal that was played.
const STACK: usize = 1 << 20;

/// Works at a post, and hands it back.
fn work_at<P, F, W: Work<P, F>, R: Threads + Wait + Sync>(rt: &R, work: &W, post: P) -> Ended<P, F>
    requires begins { W.begins work.now post }
    requires shared { IsSync R.row }
    ensures left { W.leaves work.now post result.post }
    ensures done { OnOk result.outcome (W.ends work.now post result.post) }
{
    let mut post = post;
    let outcome = work.work(rt, &mut post);
    Ended { post, outcome }
}

/// Starts a thread at a post, where one can be started.
fn start<
    's,
    E,
    P: Send + Drop + 's,
    F: Send + Drop + 's,
    W: Work<P, F> + Sync,
    R: Threads + Wait + Sync,
>(rt: &'s R, scope: &Scope<'s, E>, work: &'s W, post: P) -> Option<Thread<P, F, W>>
    requires { W.begins work.now post }
    ensures { IfSome result (IsThreadOf work.now post) }
{
    let keeps = Keeps {
        work: Snapshot::of(work),
        post: Snapshot::of(&post),
    };
    Stack::new()
        .stack_size(STACK)
        .spawn_scoped_with(
            scope,
            keeps,
            move || -> Ended<P, F>
                requires { W.begins work.now post }
            { work_at(rt, work, post) },
        )
        .ok()
}
/// Starts a thread at each post, in their order. On a fault those that were started are in the list; the other posts
/// are let go.
pub fn start_each<
    's,
    E,
    P: Send + Drop + 's,
    F: Send + Drop + 's,
    W: Work<P, F> + Sync,
    R: Threads + Wait + Sync,
>(
    rt: &'s R,
    scope: &Scope<'s, E>,
    work: &'s W,
    posts: Vec<P>,
    threads: &mut Vec<Thread<P, F, W>>,
) -> Result<(), Halt>
    requires begins { All (W.begins work.now) posts.items }
    requires none { threads.old.items ≡ [] }
    ensures { OnOk result (AreThreadsOf work.now posts.items threads.new.items) }
{
    for post in posts {
        let Some(thread) = start(rt, scope, work, post) else {
            return Err(Halt::NoThread);
        };
        threads.push(thread)?;
    }
    Ok(())
}
