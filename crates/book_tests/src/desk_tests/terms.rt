//! Terms that make no desk, and a desk without chairs.

use crate::expect::expect_eq;
use crate::lease_tests::books::{REFUSED, bare_boards, book_fault};
use crate::lease_tests::certificates::{NORTH_HIGH, boards};
use lease_desk::Desk;
use std::test::Fail;

#[test]
fn terms_are_refused_as_by_a_book(rt: HostRuntime) -> Result<(), Fail> {
    let alloc = rt.alloc();
    for (count, tries, fault) in REFUSED {
        expect_eq(&rt, &book_fault(alloc, count, tries)?, &fault);
        let opened = Desk::open(&rt, alloc, bare_boards(alloc, count)?, 10, tries, 3);
        expect_eq(&rt, &opened.err(), &fault);
    }
    Ok(())
}

#[test]
fn a_desk_without_chairs_has_no_history(rt: HostRuntime) -> Result<(), Fail> {
    let alloc = rt.alloc();
    let boards = boards(&rt, alloc, &[Some(NORTH_HIGH)]);
    let (desk, chairs) = Desk::open(&rt, alloc, boards, 10, 1, 0)?;
    expect_eq(&rt, &chairs.len(), &0);
    let closed = desk.close(&rt, chairs);
    expect_eq(&rt, &closed.chairs.len(), &0);
    expect_eq(&rt, &closed.book.history().len(), &0);
    expect_eq(&rt, &closed.book.boards().len(), &1);
    Ok(())
}
