//! The faults of a call on a play.

ghost use Rattle.std.specs.Prelude.{◌≡◌};
ghost use Rattle.dds_calls.specs.Plays.{play_code};

use crate::board_faults::BoardFault;
use crate::codes::{PLAY_FAULT, UNKNOWN_FAULT};

/// Why a call shows no number. The first that applies counts.
#[derive(Clone, Copy)]
pub enum PlayFault {
    /// The board has this fault.
    Board(BoardFault),
    /// Some numbers of the trace stand for no card that may be played there.
    Trace,
    /// Steps or memory ran out.
    Unknown,
}

impl PlayFault {
    /// Returns DDS's code for it.
    pub(crate) fn code(self) -> i32
        ensures { result ≡ play_code self }
    {
        match self {
            PlayFault::Board(fault) => fault.code(),
            PlayFault::Trace => PLAY_FAULT,
            PlayFault::Unknown => UNKNOWN_FAULT,
        }
    }
}
