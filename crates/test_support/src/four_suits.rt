//! A board with the deal [`crate::deals::FOUR_SUITS`], worked out by hand: who has the trumps takes all tricks, and
//! without trumps who leads.

/// The board, as a tournament's file.
pub const BOARD: &str = "[Board \"1\"]
[Deal \"N:AKQJT98765432... .AKQJT98765432.. ..AKQJT98765432. ...AKQJT98765432\"]
";

/// Its table.
pub const TABLE: &str = "% PBN 2.1
[Board \"1\"]
[Deal \"N:AKQJT98765432... .AKQJT98765432.. ..AKQJT98765432. ...AKQJT98765432\"]
[OptimumResultTable \"Declarer;Denomination\\2R;Result\\2R\"]
N NT  0
N  S 13
N  H  0
N  D 13
N  C  0
S NT  0
S  S 13
S  H  0
S  D 13
S  C  0
E NT  0
E  S  0
E  H 13
E  D  0
E  C 13
W NT  0
W  S  0
W  H 13
W  D  0
W  C 13

";

/// Evidence for one of its numbers: with spades as trumps North takes all tricks. East's heart is ruffed, and then
/// spades are led.
pub const RUFFS: &str = "DDE 1
deal N:AKQJT98765432... .AKQJT98765432.. ..AKQJT98765432. ...AKQJT98765432
trump S
claims 1
N 13 0 -
DDC 1
trump S
side NS
nodes 13
E 13 13.0.0.0/ 0.13.0.0/ 0.0.13.0/ 0.0.0.13/ (HxDx(CxSx{N1}))
N 12 12.0.0.0/ 0.12.0.0/ 0.0.12.0/ 0.0.0.12/ Sx(HxDx(Cx{N2}))
N 11 11.0.0.0/ 0.11.0.0/ 0.0.11.0/ 0.0.0.11/ Sx(HxDx(Cx{N3}))
N 10 10.0.0.0/ 0.10.0.0/ 0.0.10.0/ 0.0.0.10/ Sx(HxDx(Cx{N4}))
N 9 9.0.0.0/ 0.9.0.0/ 0.0.9.0/ 0.0.0.9/ Sx(HxDx(Cx{N5}))
N 8 8.0.0.0/ 0.8.0.0/ 0.0.8.0/ 0.0.0.8/ Sx(HxDx(Cx{N6}))
N 7 7.0.0.0/ 0.7.0.0/ 0.0.7.0/ 0.0.0.7/ Sx(HxDx(Cx{N7}))
N 6 6.0.0.0/ 0.6.0.0/ 0.0.6.0/ 0.0.0.6/ Sx(HxDx(Cx{N8}))
N 5 5.0.0.0/ 0.5.0.0/ 0.0.5.0/ 0.0.0.5/ Sx(HxDx(Cx{N9}))
N 4 4.0.0.0/ 0.4.0.0/ 0.0.4.0/ 0.0.0.4/ Sx(HxDx(Cx{N10}))
N 3 3.0.0.0/ 0.3.0.0/ 0.0.3.0/ 0.0.0.3/ Sx(HxDx(Cx{N11}))
N 2 2.0.0.0/ 0.2.0.0/ 0.0.2.0/ 0.0.0.2/ Sx(HxDx(Cx{N12}))
N 1 1.0.0.0/ 0.1.0.0/ 0.0.1.0/ 0.0.0.1/ Sx(HxDx(Cx{}))

DDC 1
trump S
side EW
nodes 0
";
