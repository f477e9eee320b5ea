//! Two boards, of which `test_support` has a section of evidence for the first, and one for the second, worked out by
//! hand: who has all cards of a suit takes all tricks where it is trumps, or is led without trumps.

/// Four hands of one suit each: North has the spades and East the hearts, and on the second board the other way round.
pub const BOARDS: &str =
    "[Deal \"N:AKQJT98765432... .AKQJT98765432.. ..AKQJT98765432. ...AKQJT98765432\"]

[Deal \"N:.AKQJT98765432.. AKQJT98765432... ..AKQJT98765432. ...AKQJT98765432\"]
";

/// Without trumps North takes no trick of the second board: East leads spades.
pub const RUNS: &str = "DDE 1
deal N:.AKQJT98765432.. AKQJT98765432... ..AKQJT98765432. ...AKQJT98765432
trump NT
claims 1
N 0 - 0
DDC 2
trump NT
side NS
nodes 0

DDC 2
trump NT
side EW
nodes 13
E 13 0.13.0.0/ 13.0.0.0/ 0.0.13.0/ 0.0.0.13/ Sx(DxCx(Hx{E1}))
E 12 0.12.0.0/ 12.0.0.0/ 0.0.12.0/ 0.0.0.12/ Sx(DxCx(Hx{E2}))
E 11 0.11.0.0/ 11.0.0.0/ 0.0.11.0/ 0.0.0.11/ Sx(DxCx(Hx{E3}))
E 10 0.10.0.0/ 10.0.0.0/ 0.0.10.0/ 0.0.0.10/ Sx(DxCx(Hx{E4}))
E 9 0.9.0.0/ 9.0.0.0/ 0.0.9.0/ 0.0.0.9/ Sx(DxCx(Hx{E5}))
E 8 0.8.0.0/ 8.0.0.0/ 0.0.8.0/ 0.0.0.8/ Sx(DxCx(Hx{E6}))
E 7 0.7.0.0/ 7.0.0.0/ 0.0.7.0/ 0.0.0.7/ Sx(DxCx(Hx{E7}))
E 6 0.6.0.0/ 6.0.0.0/ 0.0.6.0/ 0.0.0.6/ Sx(DxCx(Hx{E8}))
E 5 0.5.0.0/ 5.0.0.0/ 0.0.5.0/ 0.0.0.5/ Sx(DxCx(Hx{E9}))
E 4 0.4.0.0/ 4.0.0.0/ 0.0.4.0/ 0.0.0.4/ Sx(DxCx(Hx{E10}))
E 3 0.3.0.0/ 3.0.0.0/ 0.0.3.0/ 0.0.0.3/ Sx(DxCx(Hx{E11}))
E 2 0.2.0.0/ 2.0.0.0/ 0.0.2.0/ 0.0.0.2/ Sx(DxCx(Hx{E12}))
E 1 0.1.0.0/ 1.0.0.0/ 0.0.1.0/ 0.0.0.1/ Sx(DxCx(Hx{}))
";
