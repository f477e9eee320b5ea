//! A text of several pieces.

ghost use Rattle.std.specs.List.{flat_map};
ghost use Rattle.std.specs.Prelude.{◌++◌};
ghost use Rattle.cards.specs.Devices.{Writes};

use cards::{DeviceFault, Sink, write_all};

/// Writes the pieces, one after the other.
pub(crate) fn write_pieces<S: Sink>(sink: &mut S, pieces: &[&[u8]]) -> Result<(), DeviceFault>
    ensures { Writes (S.state sink.old) (S.state sink.new) (flat_map (λ piece. piece.now) pieces.now) result }
{
    for piece in pieces {
        write_all(sink, piece)?;
    }
    Ok(())
}

/// Writes a line of several pieces, with this end.
pub(crate) fn write_line<S: Sink>(
    sink: &mut S,
    pieces: &[&[u8]],
    end: &[u8],
) -> Result<(), DeviceFault>
    ensures { Writes (S.state sink.old) (S.state sink.new)
        (flat_map (λ piece. piece.now) pieces.now ++ end.now) result }
{
    write_pieces(sink, pieces)?;
    write_all(sink, end)
}
