//! Which numbers settings take.

use crate::expect::expect_eq;
use farm::{Settings, SettingsFault};

/// Of each option the two ends of its range, the numbers beyond them, and what is answered of each.
const SOLVERS: [(usize, Result<usize, SettingsFault>); 4] = [
    (0, Err(SettingsFault::Solvers)),
    (1, Ok(1)),
    (64, Ok(64)),
    (65, Err(SettingsFault::Solvers)),
];

const CHECKERS: [(usize, Result<usize, SettingsFault>); 4] = [
    (0, Err(SettingsFault::Checkers)),
    (1, Ok(1)),
    (64, Ok(64)),
    (65, Err(SettingsFault::Checkers)),
];

const TRIES: [(u32, Result<u32, SettingsFault>); 4] = [
    (0, Err(SettingsFault::Tries)),
    (1, Ok(1)),
    (1000, Ok(1000)),
    (1001, Err(SettingsFault::Tries)),
];

const BUDGETS: [(u64, Result<u64, SettingsFault>); 3] = [
    (0, Err(SettingsFault::Budget)),
    (1, Ok(1)),
    (u64::MAX, Ok(u64::MAX)),
];

const BATCHES: [(usize, Result<usize, SettingsFault>); 5] = [
    (0, Err(SettingsFault::Batch)),
    (1, Ok(1)),
    (20, Ok(20)),
    (21, Err(SettingsFault::Batch)),
    (usize::MAX, Err(SettingsFault::Batch)),
];

#[test]
fn bounds_of_settings(rt: HostRuntime) {
    let settings = Settings::new();
    for (number, wanted) in SOLVERS {
        let made = settings.with_solvers(number);
        expect_eq(&rt, &made.map(|made| made.solvers), &wanted);
    }
    for (number, wanted) in CHECKERS {
        let made = settings.with_checkers(number);
        expect_eq(&rt, &made.map(|made| made.checkers), &wanted);
    }
    for (number, wanted) in TRIES {
        let made = settings.with_tries(number);
        expect_eq(&rt, &made.map(|made| made.tries), &wanted);
    }
    for (number, wanted) in BUDGETS {
        let made = settings.with_budget(number);
        expect_eq(&rt, &made.map(|made| made.budget), &wanted);
    }
    for (number, wanted) in BATCHES {
        let made = settings.with_batch(number);
        expect_eq(&rt, &made.map(|made| made.batch), &wanted);
    }
    expect_eq(&rt, &settings.with_term(u64::MAX).term, &u64::MAX);
}
