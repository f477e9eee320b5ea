//! Which sides are vulnerable on a board (Law 2).

ghost use Rattle.std.specs.Prelude.{◌≡◌};
ghost use Rattle.par.specs.VulnerableSides.{vulnerability_of};

use crate::scores::Vulnerability;
use cards::Side;

/// Which sides are vulnerable on a board (Law 2).
#[derive(Clone, Copy, Debug, PartialEq, Eq)]
pub enum VulnerableSides {
    /// Neither side.
    Neither,
    /// North and South alone.
    NorthSouth,
    /// East and West alone.
    EastWest,
    /// Both sides.
    Both,
}

impl VulnerableSides {
    /// Whether the side is one of them.
    pub fn vulnerability(self, side: Side) -> Vulnerability
        ensures { result ≡ vulnerability_of self side }
    {
        match (self, side) {
            (VulnerableSides::Both, _)
            | (VulnerableSides::NorthSouth, Side::NorthSouth)
            | (VulnerableSides::EastWest, Side::EastWest) => Vulnerability::Vulnerable,
            _ => Vulnerability::NotVulnerable,
        }
    }
}
