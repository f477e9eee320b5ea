//! The line that tells what was passed over of evidence.

ghost use Rattle.std.specs.Prelude.{◌∷◌, ◌++◌, []};
ghost use Rattle.std.specs.Fmt.{decimal};
ghost use Rattle.cards.specs.Devices.{Writes};
ghost use Rattle.board_subcommands.specs.FinishedRuns.{TellsDamage, damage_line};

use crate::counted::write_counted;
use cards::{DeviceFault, Sink, write_all, write_number};
use evidence::Damage;

/// Tells what was passed over, if anything was. Where the error output fails, nobody is left to be told.
pub(crate) fn tell_damage<E: Sink>(damage: Damage, errors: &mut E)
    ensures { TellsDamage damage (E.state errors.old) (E.state errors.new) }
{
    if damage.count > 0 {
        let _ = write_damage(damage, errors);
    }
}

/// Writes the line.
fn write_damage<E: Sink>(damage: Damage, errors: &mut E) -> Result<(), DeviceFault>
    ensures { Writes (E.state errors.old) (E.state errors.new) (damage_line damage) result }
{
    write_all(errors, b"ddfarm: evidence: ")?;
    write_counted(
        damage.count,
        b"1 section is damaged, at byte ",
        b" sections are damaged, the first at byte ",
        errors,
    )?;
    write_first(damage.first, errors)
}

/// Writes where the first begins.
fn write_first<E: Sink>(first: u64, errors: &mut E) -> Result<(), DeviceFault>
    ensures { Writes (E.state errors.old) (E.state errors.new) (decimal first ++ 10 ∷ []) result }
{
    write_number(errors, first)?;
    write_all(errors, b"\n")
}
