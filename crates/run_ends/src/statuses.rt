//! How a run ends.

ghost use Rattle.std.specs.Prelude.{◌≡◌};
ghost use Rattle.run_ends.specs.Statuses.{status_code};

/// How a run ends.
#[derive(Clone, Copy, Debug, PartialEq, Eq)]
pub enum Status {
    /// All was done.
    Done,
    /// Memory, a thread or a device failed.
    Failed,
    /// The command line or the input was refused.
    Refused,
    /// All was done, but a table is incomplete; or there is no answer.
    Incomplete,
    /// All was done, and the answer that was checked is wrong.
    Rejected,
}

impl Status {
    /// The exit status of the process.
    pub fn code(self) -> u8
        ensures { result ≡ status_code self }
    {
        match self {
            Status::Done => 0,
            Status::Failed => 1,
            Status::Refused => 2,
            Status::Incomplete => 3,
            Status::Rejected => 4,
        }
    }
}
