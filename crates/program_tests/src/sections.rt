//! The page of a board with four hands of one suit each, and a section of evidence for it that was worked out by hand.

/// The page with one result, and with two.
pub const ONE: &str = "% PBN 2.1
[Board \"1\"]
[Deal \"N:AKQJT98765432... .AKQJT98765432.. ..AKQJT98765432. ...AKQJT98765432\"]
; table incomplete: 1 of 20

";

pub const TWO: &str = "% PBN 2.1
[Board \"1\"]
[Deal \"N:AKQJT98765432... .AKQJT98765432.. ..AKQJT98765432. ...AKQJT98765432\"]
; table incomplete: 2 of 20

";

/// North declares without trumps: East leads hearts, which nobody else has, and takes all tricks.
pub const NO_TRUMP: &[u8] = b"DDE 1
deal N:AKQJT98765432... .AKQJT98765432.. ..AKQJT98765432. ...AKQJT98765432
trump NT
claims 1
N 0 - 0
DDC 1
trump NT
side NS
nodes 0

DDC 1
trump NT
side EW
nodes 13
E 13 13.0.0.0/ 0.13.0.0/ 0.0.13.0/ 0.0.0.13/ Hx(DxCx(Sx{E1}))
E 12 12.0.0.0/ 0.12.0.0/ 0.0.12.0/ 0.0.0.12/ Hx(DxCx(Sx{E2}))
E 11 11.0.0.0/ 0.11.0.0/ 0.0.11.0/ 0.0.0.11/ Hx(DxCx(Sx{E3}))
E 10 10.0.0.0/ 0.10.0.0/ 0.0.10.0/ 0.0.0.10/ Hx(DxCx(Sx{E4}))
E 9 9.0.0.0/ 0.9.0.0/ 0.0.9.0/ 0.0.0.9/ Hx(DxCx(Sx{E5}))
E 8 8.0.0.0/ 0.8.0.0/ 0.0.8.0/ 0.0.0.8/ Hx(DxCx(Sx{E6}))
E 7 7.0.0.0/ 0.7.0.0/ 0.0.7.0/ 0.0.0.7/ Hx(DxCx(Sx{E7}))
E 6 6.0.0.0/ 0.6.0.0/ 0.0.6.0/ 0.0.0.6/ Hx(DxCx(Sx{E8}))
E 5 5.0.0.0/ 0.5.0.0/ 0.0.5.0/ 0.0.0.5/ Hx(DxCx(Sx{E9}))
E 4 4.0.0.0/ 0.4.0.0/ 0.0.4.0/ 0.0.0.4/ Hx(DxCx(Sx{E10}))
E 3 3.0.0.0/ 0.3.0.0/ 0.0.3.0/ 0.0.0.3/ Hx(DxCx(Sx{E11}))
E 2 2.0.0.0/ 0.2.0.0/ 0.0.2.0/ 0.0.0.2/ Hx(DxCx(Sx{E12}))
E 1 1.0.0.0/ 0.1.0.0/ 0.0.1.0/ 0.0.0.1/ Hx(DxCx(Sx{}))
";
