//! A section, and texts that are none by one byte.

use crate::expect::{expect, expect_bytes, expect_eq, got, joined, some};
use crate::finesse::{CLAIMS, DEAL, NS, graphs, section, text_of};
use cards::{Buffer, Layout, Suit, Trump};
use certificate_graph::Bundle;
use evidence::{Section, bundle_bytes, read_section, section_bytes, write_section};
use std::alloc::Global;
use std::process::Abort;
use test_support::graphs::NOTHING;

/// The section of a text, if it is one.
fn section_in(rt: &impl Abort, alloc: Global, text: &str) -> Option<Section> {
    got(rt, read_section(alloc, text.as_bytes()))
}

/// The text of an answer's section, if there is one.
fn text_with(
    rt: &impl Abort,
    alloc: Global,
    layout: &Layout,
    trump: Trump,
    bundle: &Bundle,
) -> Option<Vec<u8>> {
    got(rt, bundle_bytes(alloc, layout, trump, bundle))
}

/// How many claims the section has whose text it is; nothing where it is the text of none. A section is written again
/// as the same bytes, and so are its parts.
fn claims_in(rt: &impl Abort, alloc: Global, text: &str) -> Option<usize> {
    let section = section_in(rt, alloc, text)?;
    let bytes = got(rt, section_bytes(alloc, &section));
    expect_bytes(rt, bytes.as_slice(), text.as_bytes());
    let (layout, trump) = (*section.layout(), section.trump());
    let bundle = section.into_bundle();
    let written = text_with(rt, alloc, &layout, trump, &bundle);
    expect_eq(rt, &written, &Some(bytes));
    Some(bundle.claims.len())
}

/// The text of these parts has `count` claims, or is no section's.
fn expect_claims(rt: &impl Abort, alloc: Global, parts: [&str; 4], count: Option<usize>) {
    let text = text_of(rt, alloc, parts);
    expect_eq(rt, &claims_in(rt, alloc, text.as_str()), &count);
}

/// The lines of claims, and how many claims a section with them has.
const LISTS: [(&str, Option<usize>); 23] = [
    (CLAIMS, Some(1)),
    ("claims 2\nN 2 0 -\nE 0 - 0\n", Some(2)),
    (
        "claims 4\nN 2 0 -\nE 0 - 0\nS 13 999999 1\nW 0 - -\n",
        Some(4),
    ),
    ("claims 2\nE 0 - 0\nN 2 0 -\n", None),
    ("claims 2\nE 0 - 0\nE 0 - 0\n", None),
    ("claims 2\nE 0 - 0\n", None),
    ("claims 1\nE 0 - 0\nW 0 - 0\n", None),
    ("claims 0\n", None),
    ("claims 01\nE 0 - 0\n", None),
    ("claims 1\nE 00 - 0\n", None),
    ("claims 1\nE +0 - 0\n", None),
    ("claims 1\nE 14 - 0\n", None),
    ("claims 1\nE 0 - 00\n", None),
    ("claims 1\nE 0 - 1000000\n", None),
    ("claims 1\nE 0 -- 0\n", None),
    ("claims 1\nE 0  0\n", None),
    ("claims 1\nE  0 - 0\n", None),
    ("claims 1\ne 0 - 0\n", None),
    ("claims 1\nE 0 - 0 \n", None),
    ("claims 1\nE 0 - 0\r\n", None),
    ("claims 1\nE 0 - 0", None),
    ("claims 1\n", None),
    ("", None),
];

/// A section with these graphs has the claims of each list.
fn expect_lists(rt: &impl Abort, alloc: Global, graphs: &str) {
    for (claims, count) in LISTS {
        expect_claims(rt, alloc, [DEAL, "NT", claims, graphs], count);
    }
}

#[test]
fn claims(rt: HostRuntime) {
    let alloc = rt.alloc();
    let graphs = graphs(&rt, alloc);
    expect_lists(&rt, alloc, graphs.as_str());
}

/// A deal, a denomination, and how many claims a section with them has.
const DEALS: [(&str, &str, Option<usize>); 17] = [
    (DEAL, "NT", Some(1)),
    ("N:A... K... Q... J...", "NT", Some(1)),
    ("N:QA... 65... 32... K4...", "NT", None),
    ("n:AQ... 65... 32... K4...", "NT", None),
    ("N:aq... 65... 32... K4...", "NT", None),
    ("E:65... 32... K4... AQ...", "NT", None),
    ("N: AQ... 65... 32... K4...", "NT", None),
    ("N:AQ...  65... 32... K4...", "NT", None),
    ("N:AQ... 65... 32... K4... ", "NT", None),
    ("N:AQ... 65... 32... K...", "NT", None),
    ("N:AQ... 65... 32... A4...", "NT", None),
    ("N:AQ... 65... 32... -", "NT", None),
    ("?", "NT", None),
    (DEAL, "S", None),
    (DEAL, "N", None),
    (DEAL, "nt", None),
    (DEAL, "", None),
];

/// A section with these graphs is of each deal and denomination that may be.
fn expect_deals(rt: &impl Abort, alloc: Global, graphs: &str) {
    for (deal, trump, count) in DEALS {
        expect_claims(rt, alloc, [deal, trump, CLAIMS, graphs], count);
    }
}

#[test]
fn deals_and_denominations(rt: HostRuntime) {
    let alloc = rt.alloc();
    let graphs = graphs(&rt, alloc);
    expect_deals(&rt, alloc, graphs.as_str());
}

/// The parts of the text of graphs, and how many claims a section with them has.
const GRAPHS: [(&[&str], Option<usize>); 9] = [
    (&[NS, "\n", NOTHING], Some(1)),
    (&[NOTHING, "\n", NS], None),
    (&[NS, "\n", NS], None),
    (&[NS, NOTHING], None),
    (&[NS, "\n\n", NOTHING], None),
    (&[NS, "\n", NOTHING, "\n"], None),
    (&["\n", NS, "\n", NOTHING], None),
    (&[NS, "\n"], None),
    (&[NS], None),
];

#[test]
fn both_graphs(rt: HostRuntime) {
    let alloc = rt.alloc();
    for (parts, count) in GRAPHS {
        let graphs = joined(&rt, alloc, parts);
        expect_claims(&rt, alloc, [DEAL, "NT", CLAIMS, graphs.as_str()], count);
    }
}

/// What the section says.
#[test]
fn parts(rt: HostRuntime) {
    let alloc = rt.alloc();
    let text = section(&rt, alloc);
    let section = some(&rt, section_in(&rt, alloc, text.as_str()));
    says(&rt, alloc, &section);
    let (layout, trump) = (*section.layout(), section.trump());
    let again = Section::new(layout, trump, section.into_bundle()).ok();
    says(&rt, alloc, &some(&rt, again));
}

/// An answer is written with its claims in order, and not at all in another denomination or without a claim.
#[test]
fn answers(rt: HostRuntime) {
    let alloc = rt.alloc();
    let graphs = graphs(&rt, alloc);
    let claims = "claims 2\nN 2 0 -\nE 0 - 0\n";
    let text = text_of(&rt, alloc, [DEAL, "NT", claims, graphs.as_str()]);
    let section = some(&rt, section_in(&rt, alloc, text.as_str()));
    let layout = *section.layout();
    let mut bundle = section.into_bundle();
    bundle.claims.as_mut_slice().reverse();
    let written = some(&rt, text_with(&rt, alloc, &layout, Trump::Nt, &bundle));
    expect_bytes(&rt, written.as_slice(), text.as_bytes());
    let spades = Trump::Suit(Suit::Spades);
    expect(
        &rt,
        text_with(&rt, alloc, &layout, spades, &bundle).is_none(),
    );
    bundle.claims.clear();
    expect(
        &rt,
        text_with(&rt, alloc, &layout, Trump::Nt, &bundle).is_none(),
    );
}

/// East's claim, of no-trump, in graphs of two nodes and of none.
fn says(rt: &impl Abort, alloc: Global, section: &Section) {
    let mut sink = got(rt, Buffer::new(alloc, 1000, 7));
    expect(rt, write_section(&mut sink, section).is_ok());
    let text = format!(in alloc;
        "{} {} {:?}",
        section.trump(),
        section.layout().len(),
        section.claims()
    );
    let printed = got(rt, text);
    let wanted =
        "NT 2 [Claim { declarer: East, k: 0, declarer_root: None, defenders_root: Some(0) }]";
    expect_bytes(rt, printed.as_bytes(), wanted.as_bytes());
    let nodes = (section.ns().nodes().len(), section.ew().nodes().len());
    expect_eq(rt, &nodes, &(2, 0));
}
