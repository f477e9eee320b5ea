//! The parts of a section that was worked out by hand (docs/CERTIFICATES.md): West has the king and a small spade, and
//! South leads towards North's ace and queen, so that East takes no trick in no-trump.

use crate::expect::joined;
use std::alloc::Global;
use std::process::Abort;
use test_support::graphs::NOTHING;

/// The deal.
pub const DEAL: &str = "N:AQ... 65... 32... K4...";

/// The lines of the claims, with their count.
pub const CLAIMS: &str = "claims 1\nE 0 - 0\n";

/// What North and South can win.
pub const NS: &str = "DDC 1
trump NT
side NS
nodes 2
S 2 2.2.2.2/NWN 0.0.0.0/ 0.0.0.0/ 0.0.0.0/ Sx(SbSa(Sx{N1})SxSc(Sx{N1}))
N 1 1.1.1.1/N 0.0.0.0/ 0.0.0.0/ 0.0.0.0/ Sa(SxSx(Sx{}))
";

/// How many bytes the section has: 6 of the title, 31 of the deal's line, 9 of the denomination's, 17 of the claims',
/// 6 + 9 + 8 + 8 + 72 + 56 of one graph, 1 of the empty line, 6 + 9 + 8 + 8 of the other.
pub const LENGTH: u64 = 6 + 31 + 9 + 17 + (6 + 9 + 8 + 8 + 72 + 56) + 1 + (6 + 9 + 8 + 8);

/// A section's text, of its parts: the deal, the denomination, the lines of the claims, the graphs.
pub fn text_of(rt: &impl Abort, alloc: Global, parts: [&str; 4]) -> String {
    let [deal, trump, claims, graphs] = parts;
    joined(
        rt,
        alloc,
        &[
            "DDE 1\ndeal ",
            deal,
            "\ntrump ",
            trump,
            "\n",
            claims,
            graphs,
        ],
    )
}

/// Both graphs: East and West can win nothing.
pub fn graphs(rt: &impl Abort, alloc: Global) -> String {
    joined(rt, alloc, &[NS, "\n", NOTHING])
}

/// The section.
pub fn section(rt: &impl Abort, alloc: Global) -> String {
    let graphs = graphs(rt, alloc);
    text_of(rt, alloc, [DEAL, "NT", CLAIMS, graphs.as_str()])
}
