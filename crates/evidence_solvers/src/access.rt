//! How a file can be used that was opened.

ghost use Rattle.std.specs.Prelude.{◌≡◌};
ghost use Rattle.evidence_solvers.specs.Opening.{is_read_only};

/// How a file of evidence can be used.
#[derive(Clone, Copy, Debug, PartialEq, Eq)]
pub enum Access {
    /// It can be read and added to.
    ReadAndAdd,
    /// It can only be read.
    ReadOnly,
}

impl Access {
    /// Whether nothing can be added.
    pub fn is_read_only(self) -> bool
        ensures { result ≡ is_read_only self }
    {
        match self {
            Access::ReadAndAdd => false,
            Access::ReadOnly => true,
        }
    }
}
