//! Solvers that answer for another declarer, denomination or side, name nodes that aren't there, or find a part alone:
//! what is wrong is refused, what was not asked is dropped, what was not answered is given up, and the run goes on.

use crate::expect::expect_eq;
use crate::flawed::{Change, FindsSome, Flawed, Graphs};
use crate::runs::{BUDGET, quiet_book};
use crate::tallies::{leases_given_up, tally_of};
use partition_solver::Partition;
use settings_support::once;
use std::test::Fail;
use test_support::deals::ACE;

/// What is done to the graphs, and to the claims, how many entries are leased at a time, and how many of twenty are
/// published, given up, and refused.
type Row = (Graphs, &'static [Change], usize, [u64; 3]);

const PUBLISHED: [u64; 3] = [20, 0, 0];

const GIVEN_UP: [u64; 3] = [0, 20, 0];

const REFUSED: [u64; 3] = [0, 0, 20];

/// The declarers of a call are one seat, two seats across, or all four: so the next seat of each is asked for only with
/// all four. A bundle has room for four claims, so that none of two is lost where each is claimed twice.
const ROWS: [Row; 22] = [
    (Graphs::Right, &[Change::Same], 1, PUBLISHED),
    (Graphs::Right, &[Change::Same], 10, PUBLISHED),
    (Graphs::Right, &[Change::Same], 20, PUBLISHED),
    (Graphs::Right, &[], 1, GIVEN_UP),
    (Graphs::Right, &[], 20, GIVEN_UP),
    (Graphs::Right, &[Change::PastTheEnd], 1, REFUSED),
    (Graphs::Right, &[Change::PastTheEnd], 20, REFUSED),
    (Graphs::Right, &[Change::OneMore], 20, REFUSED),
    (Graphs::Right, &[Change::TooMany], 20, REFUSED),
    (Graphs::Right, &[Change::ForTheNext], 1, GIVEN_UP),
    (Graphs::Right, &[Change::ForTheNext], 10, GIVEN_UP),
    (Graphs::Right, &[Change::ForTheNext], 20, REFUSED),
    (
        Graphs::Right,
        &[Change::ForTheNext, Change::Same],
        1,
        PUBLISHED,
    ),
    (
        Graphs::Right,
        &[Change::ForTheNext, Change::Same],
        10,
        PUBLISHED,
    ),
    (Graphs::Right, &[Change::OneMore, Change::Same], 1, REFUSED),
    (Graphs::Right, &[Change::OneMore, Change::Same], 10, REFUSED),
    (
        Graphs::Right,
        &[Change::Same, Change::OneMore],
        1,
        PUBLISHED,
    ),
    (
        Graphs::Right,
        &[Change::Same, Change::OneMore],
        10,
        PUBLISHED,
    ),
    (Graphs::Swapped, &[Change::Same], 1, REFUSED),
    (Graphs::Swapped, &[Change::Same], 20, REFUSED),
    (Graphs::OfAnotherTrump, &[Change::Same], 1, REFUSED),
    (Graphs::OfAnotherTrump, &[Change::Same], 20, REFUSED),
];

#[test]
fn flawed_answers(rt: HostRuntime) {
    let search = Partition::new();
    for (number, (graphs, changes, batch, wanted)) in ROWS.iter().enumerate() {
        let solver = Flawed {
            search: &search,
            graphs: *graphs,
            changes: *changes,
        };
        let settings = once(1, 1, BUDGET, *batch);
        let tally = tally_of(&quiet_book(&rt, rt.alloc(), &[ACE], settings, &solver));
        let outcome = [tally.published, tally.gave_up, tally.bad];
        expect_eq(&rt, &(number, outcome), &(number, *wanted));
    }
}

/// All of no-trump and of spades is given up, and South's and West's hearts: all else is published.
#[test]
fn parts_of_answers(rt: HostRuntime) -> Result<(), Fail> {
    let unanswered: [u64; 10] = [1, 2, 6, 7, 8, 11, 12, 16, 17, 18];
    let search = Partition::new();
    let solver = FindsSome { search: &search };
    for batch in [7, 10, 20] {
        let settings = once(1, 1, BUDGET, batch);
        let book = quiet_book(&rt, rt.alloc(), &[ACE], settings, &solver);
        let leases = leases_given_up(rt.alloc(), &book)?;
        expect_eq(&rt, &leases.as_slice(), &unanswered.as_slice());
        expect_eq(&rt, &tally_of(&book).published, &10);
    }
    Ok(())
}
