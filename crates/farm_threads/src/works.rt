//! The work of a thread.

ghost use Rattle.std.specs.Prelude.{OnOk};
ghost use denote.Param.Send.{IsSync};

use std::sync::Wait;
use std::thread::Threads;

/// The work that a thread does at a post. The post is all that the thread needs for itself.
pub trait Work<P, F> {
    /// The posts at which the work may begin.
    ghost begins: { Self → P → Type 0 };

    /// How the work leaves a post, even if it fails: the post before the work, and after it.
    ghost leaves: { Self → P → P → Type 0 };

    /// How the work leaves a post if it does not fail.
    ghost ends: { Self → P → P → Type 0 };

    /// Works at a post.
    fn work<R: Threads + Wait + Sync>(&self, rt: &R, post: &mut P) -> Result<(), F>
        requires begins { begins self.now post.old }
        requires shared { IsSync R.row }
        ensures left { leaves self.now post.old post.new }
        ensures done { OnOk result (ends self.now post.old post.new) };
}

/// A post after the work of a thread.
#[derive(Drop)]
pub struct Ended<P, F> {
    /// The post, as the work left it.
    pub post: P,
    /// Why the work failed, if it did.
    pub outcome: Result<(), F>,
}
