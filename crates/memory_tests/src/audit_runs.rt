//! An audit whose memory runs out.

use crate::outcomes::{Outcome, Told};
use crate::spending::Spending;
use crate::texts::SHEET_END;
use audits::{AuditFault, audit_tables};
use cards::{Buffer, Bytes};
use evidence::Sections;
use std::alloc::{AllocError, Global};
use std::thread::Threads;
use test_support::four_suits::{BOARD, RUFFS};
use tournaments::{MakeFault, Page, PageForm, ParTags};

/// How many bytes there is room for: more than the sheet has.
const SHEET: usize = 10_000;

/// A sheet.
const PAGE: Page = Page {
    form: PageForm::Sheet,
    par: ParTags::Without,
};

/// What comes of an audit by this evidence. A call of `audit_tables` carries its promises to the end of the caller.
fn audited<R: Threads + Sync>(
    rt: &R,
    alloc: Global,
    sections: &mut Sections<Bytes<'_>>,
    sink: &mut Buffer,
) -> Result<(), AuditFault> {
    let mut source = Bytes::new(BOARD.as_bytes(), 7);
    audit_tables(rt, alloc, PAGE, &mut source, sections, sink)?;
    Ok(())
}

/// `audit_tables`, on a sheet, on the four hands of one suit each, by evidence for one of their numbers.
pub fn audit<R: Threads + Sync>(
    rt: &R,
    alloc: Global,
    spending: Spending,
) -> Result<Told, AllocError> {
    let mut sink = Buffer::new(alloc, SHEET, SHEET)?;
    spending.spend(alloc)?;
    let mut sections = Sections::new(alloc, Bytes::new(RUFFS.as_bytes(), 100));
    let made = audited(rt, alloc, &mut sections, &mut sink);
    let left = spending.left(alloc);
    let outcome = match made {
        Ok(()) if sink.bytes().ends_with(SHEET_END) => Outcome::Answer,
        Err(AuditFault::Page(MakeFault::OutOfMemory)) if sink.bytes().is_empty() => {
            Outcome::OutOfMemory
        }
        _ => Outcome::Wrong,
    };
    Ok(Told::Called(outcome, left))
}
