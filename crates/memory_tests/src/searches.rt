//! A search whose memory runs out.

use crate::outcomes::{Outcome, Told};
use crate::spending::Spending;
use crate::texts::FINESSE_LAYOUT;
use cards::{Layout, Seat, Trump};
use certificate_graph::{Answer, Solver};
use checker::check_entry;
use partition_solver::Partition;
use pbn_deals::read_layout;
use std::alloc::{AllocError, Global};

/// How many steps the search has.
const BUDGET: u64 = 10_000_000;

/// East's side takes no trick in no-trump.
fn is_right(layout: &Layout, answer: &Answer) -> bool {
    let Answer {
        k,
        declarer,
        defenders,
    } = answer;
    *k == 0 && check_entry(layout, Seat::East, Trump::Nt, *k, declarer, defenders).is_ok()
}

/// `Partition` on the layout in which the finesse wins, East declaring.
pub fn search(alloc: Global, spending: Spending) -> Result<Told, AllocError> {
    let Ok(layout) = read_layout(FINESSE_LAYOUT) else {
        return Ok(Told::Called(Outcome::Wrong, None));
    };
    spending.spend(alloc)?;
    let found = Partition::new().solve(alloc, &layout, &[Seat::East], Trump::Nt, BUDGET);
    let left = spending.left(alloc);
    let outcome = match found {
        Ok(Some(bundle)) => match bundle.answer_for(alloc, Seat::East)? {
            Some(answer) if is_right(&layout, &answer) => Outcome::Answer,
            _ => Outcome::Wrong,
        },
        Ok(None) => Outcome::Nothing,
        Err(AllocError) => Outcome::OutOfMemory,
    };
    Ok(Told::Called(outcome, left))
}
