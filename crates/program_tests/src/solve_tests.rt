//! Answers that are found, written and then checked.

use crate::expect::{
    CARD_TWICE, End, Memory, NO_CARDS, NO_LAYOUT, ROOM, expect_eq, expect_run, got, memory, run_on,
    some,
};
use arrayvec::ArrayVec;
use board_subcommands::table::KeptFiles;
use cards::{Bytes, Layout, Seat, Side, Suit, Trump};
use certificate_graph::{Bundle, Claim, Graph, Solver, Version};
use command_line::Subcommand;
use command_words::LayoutWords;
use deal_subcommands::read_answer;
use deal_subcommands::solve::SolveOptions;
use partition_solver::Partition;
use pbn_deals::read_layout;
use run_ends::{NamedFiles, NewFiles, Status};
use std::alloc::{AllocError, Global};
use std::process::Abort;
use std::sync::{Arc, Wait};
use std::thread::Threads;
use strategies::plain_value;
use test_support::idle::{FindsNothing, LetsPass};

/// Room for an answer of four cards a hand.
const ANSWER_ROOM: usize = 65536;

/// Steps that are enough for such an answer.
pub const STEPS: u64 = 10_000_000;

pub const ACE: &str = "N:A... K... Q... J...";

const FINESSE: &str = "N:AQ... 65... 32... K4...";

/// Endings of one to four cards a hand: a trump, a finesse, squeezes.
const ENDINGS: [&str; 6] = [
    ACE,
    "N:2... .A.. 3... .K..",
    FINESSE,
    "N:AQ... K5... 32... 64...",
    "N:AJ.K.. ..432. 2.2..A KQ.A..",
    "N:AJ.K.. KQ.A.. 2.2..A ..432.",
];

const TRUMPS: [Trump; 5] = [
    Trump::Nt,
    Trump::Suit(Suit::Spades),
    Trump::Suit(Suit::Hearts),
    Trump::Suit(Suit::Diamonds),
    Trump::Suit(Suit::Clubs),
];

/// The tricks of declarer's side, by the plain search, whose number is proved.
fn tricks_of(rt: &impl Abort, text: &str, declarer: Seat, trump: Trump) -> u8 {
    let layout = got(rt, read_layout(text.as_bytes()));
    let tricks = got(rt, plain_value(&layout, declarer.next(), trump));
    match declarer.side() {
        Side::NorthSouth => tricks,
        Side::EastWest => (layout.len() as u8).wrapping_sub(tricks),
    }
}

/// The answer tells this number, and both of its texts are of version 2.
fn expect_version_two(rt: &impl Abort, answer: &[u8], tricks: u8) {
    let (told, declarers, defenders) = some(rt, read_answer(answer));
    expect_eq(rt, &told, &tricks);
    expect_eq(rt, &declarers.starts_with(b"DDC 2\n"), &true);
    expect_eq(rt, &defenders.starts_with(b"DDC 2\n"), &true);
}

/// What comes of a search for an answer, which finds one.
fn solved<R: Abort + NamedFiles + KeptFiles + NewFiles + Threads + Wait + Sync>(
    rt: &R,
    alloc: Global,
    layout: &str,
    declarer: Seat,
    trump: Trump,
) -> Memory<'static> {
    let run = Subcommand::Solve(SolveOptions {
        deal: LayoutWords {
            layout,
            seat: declarer,
            trump,
        },
        budget: STEPS,
    });
    let mut streams = memory(rt, alloc, Bytes::new(b"", 7), (ANSWER_ROOM, 300), (ROOM, 7));
    let status = run_on(rt, alloc, run, &Partition::new(), &LetsPass, &mut streams);
    expect_eq(rt, &status, &Status::Done);
    streams
}

/// An answer is found, of version 2, and `check` accepts it with this number.
fn expect_accepted<R: Abort + NamedFiles + KeptFiles + NewFiles + Threads + Wait + Sync>(
    rt: &R,
    alloc: Global,
    layout: &str,
    declarer: Seat,
    trump: Trump,
) {
    let tricks = tricks_of(rt, layout, declarer, trump);
    let streams = solved(rt, alloc, layout, declarer, trump);
    let answer = streams.output.bytes();
    expect_version_two(rt, answer, tricks);
    let line = got(rt, format!(in alloc; "accepted {tricks}\n"));
    let check = Subcommand::Check(LayoutWords {
        layout,
        seat: declarer,
        trump,
    });
    let end = (Status::Done, line.as_str(), "");
    expect_run(rt, alloc, check, &FindsNothing, answer, ROOM, end);
}

#[test]
fn answers_are_accepted(rt: HostRuntime) {
    for &layout in &ENDINGS {
        for &declarer in &Seat::ALL {
            for &trump in &TRUMPS {
                expect_accepted(&rt, rt.alloc(), layout, declarer, trump);
            }
        }
    }
}

/// East's contract on the layout without trumps.
pub fn east(layout: &str, budget: u64) -> Subcommand<'_> {
    Subcommand::Solve(SolveOptions {
        deal: LayoutWords {
            layout,
            seat: Seat::East,
            trump: Trump::Nt,
        },
        budget,
    })
}

/// Graphs without nodes, and these claims.
fn bundle_of(alloc: Global, trump: Trump, claims: &[Claim]) -> Result<Option<Bundle>, AllocError> {
    let ns = Graph::new(Version::One, trump, Side::NorthSouth, Vec::new(alloc));
    let ew = Graph::new(Version::One, trump, Side::EastWest, Vec::new(alloc));
    let mut list = ArrayVec::new();
    for claim in claims {
        let _ = list.try_push(*claim);
    }
    match (ns, ew) {
        (Ok(ns), Ok(ew)) => Ok(Some(Bundle {
            ns: Arc::new(alloc, ns)?,
            ew: Arc::new(alloc, ew)?,
            claims: list,
        })),
        _ => Ok(None),
    }
}

/// That a declarer takes so many tricks, with nothing to show it.
fn unfounded(declarer: Seat, k: u8) -> Claim {
    Claim {
        declarer,
        k,
        declarer_root: None,
        defenders_root: None,
    }
}

/// Gives so many tricks for every layout, and certificates without nodes; or finds no memory.
#[derive(Drop)]
pub struct Claims {
    /// The tricks.
    pub tricks: Option<u8>,
}

impl Solver for Claims {
    fn solve(
        &self,
        alloc: Global,
        _layout: &Layout,
        declarers: &[Seat],
        trump: Trump,
        _budget: u64,
    ) -> Result<Option<Bundle>, AllocError> {
        let Some(k) = self.tricks else {
            return Err(AllocError);
        };
        let mut claims: ArrayVec<Claim, 4> = ArrayVec::new();
        for declarer in declarers {
            let _ = claims.try_push(unfounded(*declarer, k));
        }
        bundle_of(alloc, trump, claims.as_slice())
    }
}

/// How a run ends that has no answer.
const NO_ANSWER: End<'static> = (
    Status::Incomplete,
    "",
    "ddfarm: no answer\n  --budget gives the search more steps\n",
);

/// What is written of thirteen tricks that nothing shows.
pub const THIRTEEN: &str = "result 13
DDC 1
trump NT
side EW
nodes 0

DDC 1
trump NT
side NS
nodes 0
";

/// A layout, how many tricks a solver claims for it, and how the run ends.
const CLAIMS: [(&str, Option<u8>, End<'static>); 7] = [
    (ACE, Some(13), (Status::Done, THIRTEEN, "")),
    (ACE, Some(14), NO_ANSWER),
    (ACE, Some(255), NO_ANSWER),
    (ACE, None, (Status::Failed, "", "ddfarm: out of memory\n")),
    (
        "N:A... A... Q... J...",
        None,
        (Status::Refused, "", CARD_TWICE),
    ),
    ("N:... ... ... ...", None, (Status::Refused, "", NO_CARDS)),
    ("", None, (Status::Refused, "", NO_LAYOUT)),
];

/// A solver is trusted for nothing, but that a hand has no fourteenth trick; and it may find nothing in its steps.
#[test]
fn unfounded_claims(rt: HostRuntime) {
    let alloc = rt.alloc();
    for &(layout, tricks, wanted) in &CLAIMS {
        let solver = Claims { tricks };
        expect_run(&rt, alloc, east(layout, STEPS), &solver, b"", ROOM, wanted);
    }
    let (run, solver) = (east(FINESSE, 3), Partition::new());
    expect_run(&rt, alloc, run, &solver, b"", ROOM, NO_ANSWER);
}

/// Gives these claims for every layout, and certificates without nodes.
#[derive(Drop)]
struct Lists {
    claims: &'static [Claim],
}

impl Solver for Lists {
    fn solve(
        &self,
        alloc: Global,
        _layout: &Layout,
        _declarers: &[Seat],
        trump: Trump,
        _budget: u64,
    ) -> Result<Option<Bundle>, AllocError> {
        bundle_of(alloc, trump, self.claims)
    }
}

/// Thirteen tricks, with nothing to show them.
const BY_EAST: Claim = Claim {
    declarer: Seat::East,
    k: 13,
    declarer_root: None,
    defenders_root: None,
};

const BY_NORTH: Claim = Claim {
    declarer: Seat::North,
    ..BY_EAST
};

/// A trick more than there may be.
const TOO_MANY: Claim = Claim { k: 14, ..BY_EAST };

/// Claims by a node that isn't there.
const NO_DECLARER_NODE: Claim = Claim {
    declarer_root: Some(0),
    ..BY_EAST
};

const NO_DEFENDERS_NODE: Claim = Claim {
    defenders_root: Some(0),
    ..BY_EAST
};

/// What a solver claims that is asked for East's tricks, and how the run ends. The first claim for East counts.
const LISTS: [(&[Claim], End<'static>); 8] = [
    (&[], NO_ANSWER),
    (&[BY_NORTH], NO_ANSWER),
    (&[NO_DECLARER_NODE], NO_ANSWER),
    (&[NO_DEFENDERS_NODE], NO_ANSWER),
    (&[NO_DECLARER_NODE, BY_EAST], NO_ANSWER),
    (&[TOO_MANY, BY_EAST], NO_ANSWER),
    (&[BY_EAST, TOO_MANY], (Status::Done, THIRTEEN, "")),
    (
        &[BY_NORTH, BY_EAST, NO_DECLARER_NODE],
        (Status::Done, THIRTEEN, ""),
    ),
];

/// An answer is the first claim for declarer, and there is none where it names a node that isn't there.
#[test]
fn claims_of_others(rt: HostRuntime) {
    let alloc = rt.alloc();
    for &(claims, wanted) in &LISTS {
        let solver = Lists { claims };
        expect_run(&rt, alloc, east(ACE, STEPS), &solver, b"", ROOM, wanted);
    }
}
