//! Answers of a solver of another hand, in graphs of the first version. Their numbers are those that DDS 2.9 gives.

use cards::{Seat, Suit, Trump};

/// A contract, its value and the texts of the graphs of declarer's side and of the defenders.
#[derive(Clone, Copy)]
pub struct Foreign {
    pub layout: &'static str,
    pub declarer: Seat,
    pub trump: Trump,
    pub k: u8,
    pub declarers: &'static [u8],
    pub defenders: &'static [u8],
}

pub const ANSWERS: [Foreign; 10] = [
    Foreign {
        layout: "N:A... K... Q... J...",
        declarer: Seat::North,
        trump: Trump::Nt,
        k: 1,
        declarers: b"DDC 1
trump NT
side NS
nodes 1
E 1 1.1.1.1/N 0.0.0.0/ 0.0.0.0/ 0.0.0.0/ (SxSx(SxSa{}))
",
        defenders: b"DDC 1
trump NT
side EW
nodes 0
",
    },
    Foreign {
        layout: "N:AQ... 65... 32... K4...",
        declarer: Seat::East,
        trump: Trump::Nt,
        k: 0,
        declarers: b"DDC 1
trump NT
side EW
nodes 0
",
        defenders: b"DDC 1
trump NT
side NS
nodes 2
S 2 2.2.2.2/NWN 0.0.0.0/ 0.0.0.0/ 0.0.0.0/ Sx(SbSa(Sx{N1})SxSc(Sx{N1}))
N 1 1.1.1.1/N 0.0.0.0/ 0.0.0.0/ 0.0.0.0/ Sa(SxSx(Sx{}))
",
    },
    Foreign {
        layout: "N:.J.5.J T..4.9 86.K.. A..7.K",
        declarer: Seat::East,
        trump: Trump::Suit(Suit::Hearts),
        k: 0,
        declarers: b"DDC 1
trump H
side EW
nodes 0
",
        defenders: b"DDC 1
trump H
side NS
nodes 3
S 3 0.1.2.1/ 1.0.1.0/ 1.1.0.1/ 1.1.0.1/ Sx(SxHx(Sx{N1}))
N 2 0.0.1.0/ 0.0.1.0/ 1.1.0.1/ 1.1.0.1/ Dx(DxHx(Dx{S2}))
S 1 0.0.1.0/ 0.0.0.0/ 0.0.0.0/ 1.1.0.1/ Sx(CxCx(Cx{}))
",
    },
    Foreign {
        layout: "N:T..Q4. 8...T3 K..J2. 6.7.A.",
        declarer: Seat::South,
        trump: Trump::Suit(Suit::Clubs),
        k: 0,
        declarers: b"DDC 1
trump C
side NS
nodes 0
",
        defenders: b"DDC 1
trump C
side EW
nodes 3
W 3 1.1.1.1/ 0.0.0.1/ 2.0.2.1/W 0.2.0.0/ Da(DxSx(Dx{W1}))
W 2 1.0.1.1/ 0.0.0.1/ 1.0.1.0/ 0.2.0.0/ Sx(SxCx(Sx{E2}))
E 1 0.0.0.0/ 0.0.0.1/ 1.0.1.0/ 0.1.0.0/ Cx(DxHx(Dx{}))
",
    },
    Foreign {
        layout: "N:T..Q4. 8...T3 K..J2. 6.7.A.",
        declarer: Seat::East,
        trump: Trump::Suit(Suit::Diamonds),
        k: 1,
        declarers: b"DDC 1
trump D
side EW
nodes 3
S 1 1.1.1.1/ 0.0.0.1/ 2.0.2.1/W 0.2.0.0/ (SxSx(SxSx{N1 S2})DxDa(DxSx{}))
N 1 0.0.0.0/ 0.0.0.1/ 2.0.2.1/W 0.2.0.0/ (DxCx(DxDa{}))
S 1 0.0.0.0/ 0.0.0.1/ 2.0.2.1/W 0.2.0.0/ (DxDa(DxCx{}))
",
        defenders: b"DDC 1
trump D
side NS
nodes 3
S 2 1.1.1.1/S 0.0.0.1/ 2.0.2.1/ 0.2.0.0/ Sa(SxSx(Sx{S1}))
S 1 0.0.0.0/ 0.0.0.1/ 2.0.2.1/ 0.2.0.0/ Dx(DxDx(Cx{W2}))
W 1 0.0.0.0/ 0.0.0.1/ 1.0.1.0/ 0.1.0.0/ (HxDx(CxDx{}))
",
    },
    Foreign {
        layout: "N:T..Q4. 8...T3 K..J2. 6.7.A.",
        declarer: Seat::North,
        trump: Trump::Suit(Suit::Spades),
        k: 1,
        declarers: b"DDC 1
trump S
side NS
nodes 1
E 1 1.1.1.1/S 0.0.0.1/ 2.0.2.1/ 0.2.0.0/ (SxSa(SxSx{})CxSa(SxSx{}HxSx{}DxSx{}))
",
        defenders: b"DDC 1
trump S
side EW
nodes 7
E 2 1.1.1.1/ 0.0.0.1/ 2.0.2.1/W 0.2.0.0/ Sx(SxSx(Sx{N1 E2 S3 W4}))
N 2 0.0.0.0/ 0.0.0.1/ 2.0.2.1/W 0.2.0.0/ (DxCx(DxDa{W5}))
E 2 0.0.0.0/ 0.0.0.1/ 2.0.2.1/ 0.2.0.0/ Cx(DxHx(Dx{E6}))
S 2 0.0.0.0/ 0.0.0.1/ 2.0.2.1/W 0.2.0.0/ (DxDa(DxCx{W5}))
W 1 0.0.0.0/ 0.0.0.1/ 2.0.2.1/W 0.2.0.0/ Da(DxCx(Dx{}))
W 1 0.0.0.0/ 0.0.0.1/ 1.0.1.0/ 0.1.0.0/ Hx(DxCx(Dx{}))
E 1 0.0.0.0/ 0.0.0.0/ 1.0.1.1/ 0.1.0.0/ Cx(DxDx(Dx{}))
",
    },
    Foreign {
        layout: "N:.J.5.J T..4.9 86.K.. A..7.K",
        declarer: Seat::South,
        trump: Trump::Suit(Suit::Hearts),
        k: 2,
        declarers: b"DDC 1
trump H
side NS
nodes 4
W 2 0.1.2.1/ 1.0.1.0/ 1.1.0.1/ 1.1.0.1/ (SxHx(SxSx{N1})DxDx(DxHx{S2})CxCx(CxHx{S3}))
N 1 0.0.1.0/ 0.0.1.0/ 1.1.0.1/ 1.1.0.1/ Dx(DxHx(Dx{}))
S 1 0.1.2.1/ 1.0.0.0/ 0.0.0.0/ 1.1.0.1/ Sx(SxHx(Sx{}))
S 1 0.1.2.1/ 1.0.0.0/ 1.1.0.1/ 0.0.0.0/ Sx(SxHx(Sx{}))
",
        defenders: b"DDC 1
trump H
side EW
nodes 3
W 1 0.1.2.1/W 1.0.1.0/ 1.1.0.1/W 1.1.0.1/W Da(DxDx(Sx{}Hx{S1}))
S 1 0.1.2.1/W 1.0.0.0/ 0.0.0.0/ 1.1.0.1/W (SxSa(HxSx{N2}CxSx{}))
N 1 0.0.1.0/ 0.0.0.0/ 0.0.0.0/ 1.1.0.1/W (CxCx(SxCa{}))
",
    },
    Foreign {
        layout: "N:T..Q4. 8...T3 K..J2. 6.7.A.",
        declarer: Seat::East,
        trump: Trump::Suit(Suit::Clubs),
        k: 2,
        declarers: b"DDC 1
trump C
side EW
nodes 7
S 2 1.1.1.1/ 0.0.0.1/ 2.0.2.1/ 0.2.0.0/ (SxSx(SxSx{N1 E2 S3 W4})DxDx(DxCx{E5}))
N 2 0.0.0.0/ 0.0.0.1/ 2.0.2.1/ 0.2.0.0/ (DxCx(DxDx{E6}))
E 2 0.0.0.0/ 0.0.0.1/ 2.0.2.1/ 0.2.0.0/ Cx(DxDx(Dx{E6}))
S 2 0.0.0.0/ 0.0.0.1/ 2.0.2.1/ 0.2.0.0/ (DxDx(DxCx{E6}))
W 1 0.0.0.0/ 0.0.0.1/ 2.0.2.1/ 0.2.0.0/ Dx(DxCx(Dx{}))
E 1 1.1.1.1/ 0.0.0.1/ 1.0.1.0/ 0.1.0.0/ Cx(SxSx(Sx{}Dx{})DxSx(Sx{}Dx{}))
E 1 0.0.0.0/ 0.0.0.1/ 1.0.1.0/ 0.1.0.0/ Cx(DxHx(Dx{}))
",
        defenders: b"DDC 1
trump C
side NS
nodes 1
S 1 1.1.1.1/S 0.0.0.1/ 2.0.2.1/ 0.2.0.0/ Sa(SxSx(Sx{}))
",
    },
    Foreign {
        layout: "N:J.J7.. Q.Q.A. .8..Q8 .4.K.J",
        declarer: Seat::West,
        trump: Trump::Suit(Suit::Spades),
        k: 3,
        declarers: b"DDC 1
trump S
side EW
nodes 5
N 3 1.1.0.0/E 2.1.1.1/E 0.1.0.1/ 0.0.2.1/ (SxSa(HxHx{E1}CxHx{E2})HxHa(HxHx{E3}))
E 2 0.0.0.0/ 2.1.0.0/E 0.1.0.1/ 0.0.2.1/ Ha(CxCx(Hx{E4}))
E 2 0.0.0.0/ 2.1.1.0/E 0.1.0.1/ 0.0.1.1/ Ha(HxCx(Hx{E4}))
E 2 1.1.0.0/E 1.0.0.0/ 0.1.0.1/ 0.0.2.1/ Sa(CxCx(Sx{E4}))
E 1 0.0.0.0/ 1.0.0.0/ 0.1.0.1/ 0.0.1.0/ Dx(CxDx(Hx{}))
",
        defenders: b"DDC 1
trump S
side NS
nodes 0
",
    },
    Foreign {
        layout: "N:.J.5.J T..4.9 86.K.. A..7.K",
        declarer: Seat::West,
        trump: Trump::Suit(Suit::Clubs),
        k: 3,
        declarers: b"DDC 1
trump C
side EW
nodes 9
N 3 0.1.2.1/W 1.0.1.0/ 1.1.0.1/W 1.1.0.1/W (HxCx(HxSa{E1})DxDx(SxDa{W2}HxDa{W3})CxCx(SxCa{W4}HxCa{W5}))
E 2 0.1.2.0/ 0.0.0.0/ 1.1.0.1/W 1.0.0.1/W Dx(SxDa(Dx{W6}))
W 2 0.1.1.1/W 1.0.1.0/ 0.0.0.0/ 1.1.0.1/W Ca(CxCx(Sx{W7}Hx{W8}))
W 2 0.1.2.1/W 1.0.0.0/ 0.0.0.0/ 1.1.0.1/W Ca(CxCx(Sx{W8}))
W 2 0.1.1.1/W 1.0.1.0/ 1.1.0.1/W 0.0.0.0/ Da(DxDx(Sx{W7}Hx{W8}))
W 2 0.1.2.1/W 1.0.0.0/ 1.1.0.1/W 0.0.0.0/ Da(DxDx(Sx{W8}))
W 1 0.1.1.0/ 0.0.0.0/ 0.0.0.0/ 1.0.0.1/W Ca(CxSx(Sx{}))
W 1 0.1.0.1/ 1.0.1.0/ 0.0.0.0/ 0.0.0.0/ Sx(HxSx(Hx{}))
W 1 0.1.1.1/W 1.0.0.0/ 0.0.0.0/ 0.0.0.0/ Sa(HxSx(Sx{}))
",
        defenders: b"DDC 1
trump C
side NS
nodes 0
",
    },
];
