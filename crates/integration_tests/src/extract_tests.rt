//! Graphs that begin with another node.

use crate::certificates::FINESSE;
use crate::expect::{expect_bytes, expect_eq, got};
use cards::Buffer;
use certificate_graph::Graph;
use std::alloc::Global;
use std::process::Abort;

/// The graph has this text.
fn expect_text(rt: &impl Abort, alloc: Global, graph: &Graph, text: &[u8]) {
    let mut sink = got(rt, Buffer::new(alloc, 400, 100));
    expect_eq(rt, &graph.write(&mut sink), &Ok(()));
    expect_bytes(rt, sink.bytes(), text);
}

/// The graph that begins with a node of this one.
fn begun_with(rt: &impl Abort, alloc: Global, graph: &Graph, root: u32) -> Graph {
    assert!(rt; (root as usize) < graph.nodes().len());
    got(rt, graph.extract(alloc, Some(root)))
}

#[test]
fn extracted(rt: HostRuntime) {
    let graph = got(&rt, Graph::read(rt.alloc(), TEXT));
    let same = begun_with(&rt, rt.alloc(), &graph, 0);
    expect_text(&rt, rt.alloc(), &same, TEXT);
    let other = begun_with(&rt, rt.alloc(), &graph, 1);
    expect_text(&rt, rt.alloc(), &other, OTHER);
    let back = begun_with(&rt, rt.alloc(), &other, 1);
    expect_text(&rt, rt.alloc(), &back, TEXT);
}

/// The finesse with its two nodes in the other order begins with the second one of them.
#[test]
fn extracted_finesse(rt: HostRuntime) {
    let graph = got(&rt, Graph::read(rt.alloc(), EXCHANGED));
    let begun = begun_with(&rt, rt.alloc(), &graph, 1);
    expect_text(&rt, rt.alloc(), &begun, FINESSE);
}

#[test]
fn extracted_from_no_node(rt: HostRuntime) {
    let graph = got(&rt, Graph::read(rt.alloc(), TEXT));
    let none = got(&rt, graph.extract(rt.alloc(), None));
    expect_text(&rt, rt.alloc(), &none, NONE);
}

const EXCHANGED: &[u8] = b"DDC 1
trump NT
side NS
nodes 2
N 1 1.1.1.1/N 0.0.0.0/ 0.0.0.0/ 0.0.0.0/ Sa(SxSx(Sx{}))
S 2 2.2.2.2/NWN 0.0.0.0/ 0.0.0.0/ 0.0.0.0/ Sx(SbSa(Sx{N0})SxSc(Sx{N0}))
";

const TEXT: &[u8] = b"DDC 1
trump NT
side NS
nodes 3
S 2 2.2.2.2/NWN 0.0.0.0/ 0.0.0.0/ 0.0.0.0/ Sx(SbSa(Sx{N1})SxSc(Sx{N2}))
N 1 1.1.1.1/N 0.0.0.0/ 0.0.0.0/ 0.0.0.0/ Sa(SxSx(Sx{}))
E 1 1.1.1.1/N 0.0.0.0/ 0.0.0.0/ 0.0.0.0/ (SxSx(SxSa{N0 E1}))
";

const OTHER: &[u8] = b"DDC 1
trump NT
side NS
nodes 3
N 1 1.1.1.1/N 0.0.0.0/ 0.0.0.0/ 0.0.0.0/ Sa(SxSx(Sx{}))
S 2 2.2.2.2/NWN 0.0.0.0/ 0.0.0.0/ 0.0.0.0/ Sx(SbSa(Sx{N0})SxSc(Sx{N2}))
E 1 1.1.1.1/N 0.0.0.0/ 0.0.0.0/ 0.0.0.0/ (SxSx(SxSa{N1 E0}))
";

const NONE: &[u8] = b"DDC 1
trump NT
side NS
nodes 0
";
