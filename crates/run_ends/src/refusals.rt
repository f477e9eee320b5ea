//! Why PBN texts and layouts are refused, as it is printed.

ghost use Rattle.cards.specs.Devices.{Writes};
ghost use Rattle.pbn_deals.specs.Faults.{fault_line, fault_text};
ghost use Rattle.run_ends.specs.Telling.{after_line};

use cards::{DeviceFault, Sink, write_all, write_number};
use pbn_deals::PbnFault;

/// Writes why a PBN text is refused, after its line.
pub fn write_text_refusal<E: Sink>(refusal: PbnFault, errors: &mut E) -> Result<(), DeviceFault>
    ensures { Writes (E.state errors.old) (E.state errors.new)
        (after_line (fault_line refusal) (fault_text refusal)) result }
{
    let Some(line) = refusal.line() else {
        return write_refusal(refusal, errors);
    };
    write_all(errors, b"line ")?;
    write_number(errors, line as u64)?;
    write_all(errors, b": ")?;
    write_refusal(refusal, errors)
}

/// Writes the number and the name of a refusal.
pub fn write_refusal<E: Sink>(refusal: PbnFault, errors: &mut E) -> Result<(), DeviceFault>
    ensures { Writes (E.state errors.old) (E.state errors.new) (fault_text refusal) result }
{
    write_number(errors, u64::from(refusal.number()))?;
    write_all(errors, b" ")?;
    write_all(errors, refusal.name().as_bytes())
}
