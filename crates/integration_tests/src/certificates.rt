//! Small certificates that were worked out by hand.

/// A finesse: South leads, North covers West's card, and wins two tricks.
pub const FINESSE: &[u8] = b"DDC 1
trump NT
side NS
nodes 2
S 2 2.2.2.2/NWN 0.0.0.0/ 0.0.0.0/ 0.0.0.0/ Sx(SbSa(Sx{N1})SxSc(Sx{N1}))
N 1 1.1.1.1/N 0.0.0.0/ 0.0.0.0/ 0.0.0.0/ Sa(SxSx(Sx{}))
";

/// North's ace wins the only trick.
pub const ACE: &[u8] = b"DDC 1
trump NT
side NS
nodes 1
E 1 1.1.1.1/N 0.0.0.0/ 0.0.0.0/ 0.0.0.0/ (SxSx(SxSa{}))
";

/// The same, by the rules of the second version.
pub const SECOND_ACE: &[u8] = b"DDC 2
trump NT
side NS
nodes 1
E 1 1.1.1.1/N 0.0.0.0/ 0.0.0.0/ 0.0.0.0/ (SxSx(SxSa{}))
";

/// East and West need nothing.
pub const NOTHING: &[u8] = b"DDC 1
trump NT
side EW
nodes 0
";
