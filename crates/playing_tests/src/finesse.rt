//! A finesse: South leads, North covers West's card, and wins two tricks in no-trump, declared by East.

/// The deal.
pub const DEAL: &[u8] = b"N:AQ... 65... 32... K4...";

/// The certificate of the defenders: North's card waits for West's.
pub const FINESSE: &[u8] = b"DDC 1
trump NT
side NS
nodes 2
S 2 2.2.2.2/NWN 0.0.0.0/ 0.0.0.0/ 0.0.0.0/ Sx(SbSa(Sx{N1})SxSc(Sx{N1}))
N 1 1.1.1.1/N 0.0.0.0/ 0.0.0.0/ 0.0.0.0/ Sa(SxSx(Sx{}))
";

/// That of declarer's side: East and West need nothing, and play their lowest cards.
pub const NOTHING: &[u8] = b"DDC 1
trump NT
side EW
nodes 0
";
