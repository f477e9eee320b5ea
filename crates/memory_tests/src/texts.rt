//! Texts that the calls read, and what they answer with ample memory, worked out by hand.

/// A file as a tournament writes it.
pub const CR_LF: &[u8] = b"% PBN 2.1\r
[Event \"x\"]\r
[board \"7\"]\r
{ a comment\r
\r
[Deal \"N:- - - -\"] }\r
[Deal \"e:.akqjt98765432.. ..23456789tjqka. ...AKQJT98765432 AKQJT98765432...\"]\r
[Auction \"N\"]\r
1C Pass {strong [x} Pass Pass\r
\r
[Event \"no deal\"]\r
\r
[Board \"8\"]\r
[Deal \"N:AKQJT98765432... - - -\"]\r
";

/// What is written of the board of four hands of one suit each before its numbers.
pub const HEAD: &[u8] = b"% PBN 2.1
[Board \"1\"]
[Deal \"N:AKQJT98765432... .AKQJT98765432.. ..AKQJT98765432. ...AKQJT98765432\"]
";

/// A finesse: South leads, North covers West's card, and wins two tricks.
pub const FINESSE: &[u8] = b"DDC 1
trump NT
side NS
nodes 2
S 2 2.2.2.2/NWN 0.0.0.0/ 0.0.0.0/ 0.0.0.0/ Sx(SbSa(Sx{N1})SxSc(Sx{N1}))
N 1 1.1.1.1/N 0.0.0.0/ 0.0.0.0/ 0.0.0.0/ Sa(SxSx(Sx{}))
";

/// The same graph begun with its second node.
pub const FROM_SECOND: &[u8] = b"DDC 1
trump NT
side NS
nodes 2
N 1 1.1.1.1/N 0.0.0.0/ 0.0.0.0/ 0.0.0.0/ Sa(SxSx(Sx{}))
S 2 2.2.2.2/NWN 0.0.0.0/ 0.0.0.0/ 0.0.0.0/ Sx(SbSa(Sx{N0})SxSc(Sx{N0}))
";

/// The layout in which the finesse wins.
pub const FINESSE_LAYOUT: &[u8] = b"N:AQ... 65... 32... K4...";

/// What is written of the board on which North has the ace, without a number.
pub const HEAD_OF_ACE: &[u8] = b"% PBN 2.1
[Board \"\"]
[Deal \"N:A... K... Q... J...\"]
; table incomplete: 0 of 20

";

/// The end of the sheet with that board, of which North's spades alone are known.
pub const SHEET_END: &[u8] = b"<li class=\"points\">10</li>
</ul></div>
<footer><p>Table incomplete: <b>1</b> of 20 results are known</p></footer></article></main>
</body>
</html>
";
