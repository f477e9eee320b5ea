//! What a gate is told by a checker and by a clerk, and what it sees.

use crate::expect::expect_eq;
use crate::notices::{KeepsNotices, answers_in};
use crate::runs::book_of;
use crate::sharing::CountsHolders;
use crate::solvers::FindsTheAce;
use crate::tallies::{hand_ins_of, tally_of};
use farm::Means;
use settings_support::once;
use std::test::Fail;
use test_support::deals::ACE;
use test_support::idle::StandsStill;

/// One clerk's claims, of which one is published and the others are refused: each is told once with its reply, in the
/// order of the history.
#[test]
fn hand_ins_are_told_with_their_replies(rt: HostRuntime) -> Result<(), Fail> {
    let alloc = rt.alloc();
    let gate = KeepsNotices::new(&rt, alloc);
    let means = Means {
        solver: &FindsTheAce,
        gate: &gate,
        clock: &StandsStill,
    };
    let book = book_of(&rt, alloc, &[ACE], once(1, 1, 1, 1), &means);
    let tally = tally_of(&book);
    expect_eq(&rt, &(tally.published, tally.bad), &(1, 19));
    let told = answers_in(alloc, gate.into_notices().as_slice())?;
    expect_eq(&rt, &told.len(), &20);
    expect_eq(&rt, &told, &hand_ins_of(alloc, &book)?);
    Ok(())
}

/// The claims in a denomination for all four declarers hold one graph a side with what its check found: so it was
/// checked for all of them at once.
#[test]
fn claims_share_what_was_checked(rt: HostRuntime) -> Result<(), Fail> {
    let counts = CountsHolders::new(rt.alloc())?;
    let means = Means {
        solver: &counts,
        gate: &counts,
        clock: &StandsStill,
    };
    let book = book_of(&rt, rt.alloc(), &[ACE], once(1, 1, 1, 20), &means);
    expect_eq(&rt, &tally_of(&book).bad, &20);
    expect_eq(&rt, &counts.holders(), &(2, 2));
    Ok(())
}
