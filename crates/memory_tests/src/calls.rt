//! The calls by their names.

use crate::audit_runs::audit;
use crate::books::{new_book, replayed};
use crate::clerks::clerk;
use crate::desks::{closed, desk};
use crate::outcomes::{Outcome, Told};
use crate::readings::{boards, extracted, graph};
use crate::searches::search;
use crate::spending::Spending;
use crate::table_runs::tables;
use crate::without_memory::{checks, writes};
use std::alloc::Global;
use std::sync::Wait;
use std::thread::Threads;
use std::time::Clock;

/// Makes the call of this name.
pub fn call<R: Threads + Wait + Clock + Sync>(
    rt: &R,
    alloc: Global,
    name: &str,
    spending: Spending,
) -> Told {
    let called = match name {
        "boards" => boards(alloc, spending),
        "graph" => graph(alloc, spending),
        "extract" => extracted(alloc, spending),
        "book" => new_book(alloc, spending),
        "replay" => replayed(alloc, spending),
        "search" => search(alloc, spending),
        "desk" => desk(rt, alloc, spending),
        "tables" => tables(rt, alloc, spending),
        "audit" => audit(rt, alloc, spending),
        "checks" => checks(alloc, spending),
        "writes" => writes(alloc, spending),
        "close" => closed(rt, alloc, spending),
        "clerk" => clerk(rt, alloc, spending),
        _ => Ok(Told::Called(Outcome::Wrong, None)),
    };
    called.unwrap_or(Told::Before)
}
