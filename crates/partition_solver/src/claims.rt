//! What a call claims: the tricks of each declarer, and the roots of both graphs that are to show them.

use crate::graph_writing::write_graph;
use crate::plans::TrickStart;
use arrayvec::ArrayVec;
use cards::{Seat, Side, Trump};
use certificate_graph::{Bundle, Claim};
use partition_search::{Holdings, Search};

/// The declarers in the order in which they are searched. Partners mostly take as many tricks, so the second of them
/// begins with a good guess.
const SEARCH_ORDER: [Seat; 4] = [Seat::North, Seat::South, Seat::East, Seat::West];

/// Where play starts for the declarers of a denomination, each once. A root's number is its place: a graph begins with
/// them.
type Roots = ArrayVec<TrickStart, 4>;

/// What is claimed so far.
#[derive(Drop)]
struct Claims {
    claims: ArrayVec<Claim, 4>,
    /// The roots of North's and South's graph.
    ours: Roots,
    /// Those of East's and West's.
    theirs: Roots,
    /// By the leader's side, North's and South's first, how many tricks North and South take where its last value was
    /// found.
    last: [Option<i32>; 2],
}

/// The claims for these declarers of a deal of so many tricks, with their graphs. None where a graph can't be finished,
/// nothing is claimed or memory ran out. Each declarer's tricks are searched with so many steps. Where that was not
/// enough for all, half of what the others have left is searched with too, and the graphs are written with the rest.
pub(crate) fn bundle_of(
    search: &mut Search,
    tricks: i32,
    declarers: &[Seat],
    trump: Trump,
    budget: u64,
) -> Option<Bundle> {
    let mut found = Claims::new();
    let left = found.add_each(search, tricks, declarers, budget);
    let spare = left / 2;
    let left = left.wrapping_sub(spare);
    search.steps = spare;
    found.add_missing(search, tricks, declarers);
    if search.memory_ran_out || found.claims.is_empty() {
        return None;
    }
    search.steps = left.saturating_add(search.steps);
    Some(Bundle {
        ns: write_graph(search, trump, Side::NorthSouth, found.ours.as_slice())?,
        ew: write_graph(search, trump, Side::EastWest, found.theirs.as_slice())?,
        claims: found.in_order(declarers),
    })
}

/// Whether the seat is one of these.
fn is_among(seats: &[Seat], seat: Seat) -> bool {
    seats.iter().any(|other| other.number() == seat.number())
}

impl Claims {
    /// Nothing is claimed.
    fn new() -> Claims {
        Claims {
            claims: ArrayVec::new(),
            ours: Roots::new(),
            theirs: Roots::new(),
            last: [None; 2],
        }
    }

    /// Adds the claims for declarers, each with so many steps, and answers how many they leave.
    fn add_each(
        &mut self,
        search: &mut Search,
        tricks: i32,
        declarers: &[Seat],
        budget: u64,
    ) -> u64 {
        let mut left = 0u64;
        for declarer in SEARCH_ORDER {
            if search.memory_ran_out || self.claims.is_full() {
                break;
            }
            if !is_among(declarers, declarer) {
                continue;
            }
            search.steps = budget;
            self.add(search, tricks, declarer);
            left = left.saturating_add(search.steps);
        }
        left
    }

    /// Adds the claims that are missing for declarers, as far as the steps of the search go.
    fn add_missing(&mut self, search: &mut Search, tricks: i32, declarers: &[Seat]) {
        for declarer in declarers {
            if search.steps > 0 && !self.has(*declarer) {
                self.add(search, tricks, *declarer);
            }
        }
    }

    /// Whether there is a claim for a declarer.
    fn has(&self, declarer: Seat) -> bool {
        self.claim_for(declarer).is_some()
    }

    /// The claim for a declarer, if there is one.
    fn claim_for(&self, declarer: Seat) -> Option<Claim> {
        for claim in self.claims.as_slice() {
            if claim.declarer.number() == declarer.number() {
                return Some(*claim);
            }
        }
        None
    }

    /// The claims in the order of these declarers.
    fn in_order(&self, declarers: &[Seat]) -> ArrayVec<Claim, 4> {
        let mut ordered = ArrayVec::new();
        for declarer in declarers {
            if let Some(claim) = self.claim_for(*declarer) {
                let _ = ordered.try_push(claim);
            }
        }
        ordered
    }

    /// Adds the claim for a declarer, if its value is found and what shows it is remembered. The first guess of all is
    /// one trick more than is likely: a wrong guess costs less if it is too high.
    fn add(&mut self, search: &mut Search, tricks: i32, declarer: Seat) -> Option<()> {
        let leader = declarer.next().number();
        let side = leader & 1;
        let last = self.last[side].or(self.last[1 - side]);
        let guess = last.unwrap_or(search.guess(tricks).wrapping_add(1));
        let ours = search.value(leader, guess)?;
        self.last[side] = Some(ours);
        let theirs = tricks.wrapping_sub(ours);
        let our_start = start_of(search, leader, Side::NorthSouth, ours)?;
        let their_start = start_of(search, leader, Side::EastWest, theirs)?;
        let our_root = our_start.map(|start| root_in(&mut self.ours, start));
        let their_root = their_start.map(|start| root_in(&mut self.theirs, start));
        let claim = match declarer {
            Seat::North | Seat::South => claim_of(declarer, ours, our_root, their_root),
            Seat::East | Seat::West => claim_of(declarer, theirs, their_root, our_root),
        };
        self.claims.try_push(claim).ok()
    }
}

/// Where play starts for a side that wins just so many tricks with this seat to lead, or nothing where those are none.
/// None where it is not remembered.
pub(crate) fn start_of(
    search: &Search,
    leader: usize,
    side: Side,
    need: i32,
) -> Option<Option<TrickStart>> {
    if need <= 0 {
        return Some(None);
    }
    let lengths = Holdings::of(search.deal.hands).lengths;
    let shape = search.records.shape(lengths);
    let list = search.records.list(shape, leader, side)?;
    let left = search.all_cards();
    let record = search
        .records
        .find(list, left.near, || left.deep(), (need & 15) as u8)?;
    if i32::from(search.records.record(record).need) != need {
        return None;
    }
    Some(Some(TrickStart {
        left: left.cards,
        lengths,
        record,
        leader,
    }))
}

/// The number of a root, which is added where it is new.
fn root_in(roots: &mut Roots, start: TrickStart) -> u32 {
    let mut number = 0u32;
    for root in roots.as_slice() {
        if root.record == start.record {
            return number;
        }
        number = number.wrapping_add(1);
    }
    let _ = roots.try_push(start);
    number
}

/// The claim that declarer's side takes so many tricks, with these roots.
fn claim_of(
    declarer: Seat,
    tricks: i32,
    declarer_root: Option<u32>,
    defenders_root: Option<u32>,
) -> Claim {
    Claim {
        declarer,
        k: (tricks & 15) as u8,
        declarer_root,
        defenders_root,
    }
}
