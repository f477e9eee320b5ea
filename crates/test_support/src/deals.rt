//! Deals that several tests are about.

/// Four hands of one suit each: North has the spades, East the hearts, South the diamonds, West the clubs.
pub const FOUR_SUITS: &str =
    "N:AKQJT98765432... .AKQJT98765432.. ..AKQJT98765432. ...AKQJT98765432";

/// One card each, of which North's ace wins the only trick without trumps.
pub const ACE: &str = "N:A... K... Q... J...";
