//! An entry whose claim is refused after the lender has ended is searched again.

use crate::expect::expect_eq;
use crate::late::{AfterTheLender, LiesOnce};
use crate::runs::{BUDGET, book_of};
use crate::tallies::{NONE, TableTally, tally_of};
use farm::{Means, Settings, SettingsFault};
use partition_solver::Partition;
use settings_support::once;
use test_support::deals::ACE;

/// Settings by which all entries of a board are leased at a time, and an entry twice.
fn twice() -> Result<Settings, SettingsFault> {
    once(1, 1, BUDGET, 20)?.with_tries(2)
}

#[test]
fn what_is_refused_at_last_is_searched_again(rt: HostRuntime) {
    let search = Partition::new();
    let solver = LiesOnce::new(&search);
    let late = AfterTheLender::new();
    let means = Means {
        solver: &solver,
        gate: &late,
        clock: &late,
    };
    let tally = tally_of(&book_of(&rt, rt.alloc(), &[ACE], twice(), &means));
    let wanted = TableTally {
        given: 40,
        published: 20,
        bad: 20,
        nothing: 2,
        freed_none: 2,
        ..NONE
    };
    expect_eq(&rt, &late.has_waited(), &true);
    expect_eq(&rt, &tally, &wanted);
}
