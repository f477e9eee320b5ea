//! Sections of the form alone: what they claim is not true.

use crate::expect::{got, some};
use cards::Layout;
use evidence::read_section;
use std::alloc::Global;
use std::process::Abort;

/// A section that claims so many tricks for North in no-trump, by graphs without a node.
pub fn section(rt: &impl Abort, alloc: Global, tricks: u8) -> String {
    let text = format!(in alloc;
        "DDE 1
deal N:AQ... 65... 32... K4...
trump NT
claims 1
N {tricks} - -
DDC 1
trump NT
side NS
nodes 0

DDC 1
trump NT
side EW
nodes 0
"
    );
    got(rt, text)
}

/// The texts of this many sections that claim nine tricks.
pub fn nines(rt: &impl Abort, alloc: Global, count: u8) -> String {
    let text = section(rt, alloc, 9);
    let mut all = String::new(alloc);
    for _section in 0..count {
        got(rt, all.push_str(text.as_str()));
    }
    all
}

/// The layout of these sections.
pub fn layout(rt: &impl Abort, alloc: Global) -> Layout {
    let text = section(rt, alloc, 0);
    let section = some(rt, got(rt, read_section(alloc, text.as_bytes())));
    *section.layout()
}
