//! What a solver's answer shows of the declarers of a denomination.

use certificate_graph::Bundle;

/// The tricks that each declarer takes, as far as they were shown.
#[derive(Clone, Copy, Debug)]
pub struct FourTricks {
    pub north: Option<u8>,
    pub east: Option<u8>,
    pub south: Option<u8>,
    pub west: Option<u8>,
}

/// The tricks of the declarers, and the claims and graphs that show them.
#[derive(Drop)]
pub struct TricksFound {
    pub tricks: FourTricks,
    pub bundle: Bundle,
}
