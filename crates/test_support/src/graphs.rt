//! Texts of graphs for the one trick of [`crate::deals::ACE`].

/// North's ace wins the trick that East leads to.
pub const ACE_WINS: &str = "DDC 1
trump NT
side NS
nodes 1
E 1 1.1.1.1/N 0.0.0.0/ 0.0.0.0/ 0.0.0.0/ (SxSx(SxSa{}))
";

/// East and West need nothing.
pub const NOTHING: &str = "DDC 1
trump NT
side EW
nodes 0
";
