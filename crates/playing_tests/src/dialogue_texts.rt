//! What a dialogue over the finesse says: South leads the two, and North and South have promised both tricks.

/// Before the first line.
pub const OPENING: &str = "NS promised 2
S S2
N: AQ...
E: 65...
S: 3...
W: K4...
1 S: S2
NS 0, EW 0
W to play
";

/// All at West's turn again.
pub const FIRST: &str = "N: AQ...
E: 65...
S: 3...
W: K4...
1 S: S2
NS 0, EW 0
W to play
";

/// West plays the four, and North finesses.
pub const FOUR: &str = "W S4
N SQ
N: A...
E: 65...
S: 3...
W: K...
1 S: S2 S4 SQ
NS 0, EW 0
E to play
";

/// West plays the king, and North takes it.
pub const KING: &str = "W SK
N SA
N: Q...
E: 65...
S: 3...
W: 4...
1 S: S2 SK SA
NS 0, EW 0
E to play
";

/// After the four East plays the five, and North goes on with the ace.
pub const FIVE: &str = "E S5
N SA
N: ...
E: 6...
S: 3...
W: K...
2 N: SA
NS 1, EW 0
E to play
";

/// All at East's second turn after the five again.
pub const SECOND: &str = "N: ...
E: 6...
S: 3...
W: K...
2 N: SA
NS 1, EW 0
E to play
";

/// East has only the six, and South follows.
pub const SIX: &str = "E S6
S S3
N: ...
E: ...
S: ...
W: K...
2 N: SA S6 S3
NS 1, EW 0
W to play
";

/// West's last card, and the end.
pub const END: &str = "W SK
played S2 S4 SQ S5 SA S6 S3 SK
NS 2, EW 0
NS promised 2
";

/// An end before the first line.
pub const NONE_PLAYED: &str = "played S2
NS 0, EW 0
NS promised 2
";

/// An end after the four.
pub const FOUR_PLAYED: &str = "played S2 S4 SQ
NS 0, EW 0
NS promised 2
";

/// West is asked again.
pub const WEST: &str = "W to play
";

/// East is asked again.
pub const EAST: &str = "E to play
";

/// Refusals.
pub const NO_CARD: &str = "no card: type one as S3 or 3S, or undo, hands or quit
";

pub const NOT_HELD: &str = "the card is not in this hand
";

pub const SEVERAL: &str = "more than one card may be played
";

pub const NOTHING_BACK: &str = "there is no card to take back
";

/// All at East's first turn after the four again.
pub const FOUR_ASKED: &str = "N: A...
E: 65...
S: 3...
W: K...
1 S: S2 S4 SQ
NS 0, EW 0
E to play
";

/// An end after the five.
pub const FIVE_PLAYED: &str = "played S2 S4 SQ S5 SA
NS 1, EW 0
NS promised 2
";

/// North leads spades, South tries to discard, and follows; East and West have promised nothing.
pub const FOLLOWED: &str = "EW promised 0
N: A.A..
E: K.K..
S: Q.Q..
W: J.J..
1 N:
NS 0, EW 0
N to play
N SA
E SK
N: .A..
E: .K..
S: Q.Q..
W: J.J..
1 N: SA SK
NS 0, EW 0
S to play
the suit led must be followed
S to play
S SQ
W SJ
N: .A..
E: .K..
S: .Q..
W: .J..
2 N:
NS 1, EW 0
N to play
N HA
E HK
N: ...
E: ...
S: .Q..
W: .J..
2 N: HA HK
NS 1, EW 0
S to play
played SA SK SQ SJ HA HK
NS 1, EW 0
EW promised 0
";
