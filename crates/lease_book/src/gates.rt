//! Who is told of the work.

ghost use Rattle.lease_book.specs.Keeping.{AreFirsts};

use crate::entries::Entry;
use crate::events::Reply;
use pbn_deals::Board;

/// Is told of the work of threads. It is asked nothing, and what it does is its own.
pub trait Gate {
    /// Work on these boards is about to begin. For each board there is the number of the first that has its deal.
    fn before_work(&self, _boards: &[Board], _firsts: &[usize])
        requires { AreFirsts _boards.now _firsts.now }
    {}

    /// A solver is about to work on this lease.
    fn before_solve(&self, lease: u64);

    /// The graphs that an answer under this lease claims something of are about to be checked.
    fn before_graphs(&self, _lease: u64) {}

    /// A claim under this lease is about to be checked.
    fn before_check(&self, lease: u64);

    /// A claim for this entry was checked and handed in, and had this reply.
    fn after_check(&self, _entry: Entry, _reply: Reply) {}

    /// All work has ended.
    fn after_work(&self) {}
}
