//! What is printed of a fault.

ghost use Rattle.std.specs.Prelude.{◌≡◌, option_map};
ghost use Rattle.cards.specs.Devices.{Writes};
ghost use Rattle.run_ends.specs.Explanations.{explained};
ghost use Rattle.run_ends.specs.Telling.{Ends, IsTold, told_line, told_text};

use crate::explanations::{write_opening, write_second_line};
use crate::statuses::Status;
use cards::{DeviceFault, Sink, write_all};
use streams::CannotOpen;

/// Why a run can't do what was asked.
pub trait Fault: Copy {
    ghost use Rattle.std.specs.Prelude.{◌≡◌, ℕ, List, Option};
    ghost use Rattle.cards.specs.Devices.{Writes};
    ghost use Rattle.run_ends.specs.declared.statuses.Status.{Status};
    ghost use Rattle.streams.specs.declared.opening.CannotOpen.{CannotOpen};

    /// How the run ends.
    ghost status_of: { Self → Status };

    /// What is said of it.
    ghost said_of: { Self → List ℕ };

    /// Why a file can't be opened, if that is the fault.
    ghost opening_of: { Self → Option CannotOpen };

    /// What explains any other fault. The text is empty if nothing does.
    ghost explanation_of: { Self → List ℕ };

    /// Returns how the run ends.
    fn status(self) -> Status
        ensures { result ≡ status_of self };

    /// Writes what is said of the fault.
    fn write_said<E: Sink>(self, errors: &mut E) -> Result<(), DeviceFault>
        ensures { Writes (E.state errors.old) (E.state errors.new) (said_of self) result };

    /// Returns why a file can't be opened, if that is the fault.
    fn opening(self) -> Option<CannotOpen>
        ensures { result ≡ opening_of self };

    /// Returns what explains any other fault. The text is empty if nothing does.
    fn explanation(self) -> &'static str
        ensures { result.now ≡ explanation_of self };
}

/// Writes the fault on the error output, with what explains it, and answers how the run ends. A file that can't be
/// opened has this name. If the error output fails, nobody is left to be told.
pub fn tell<F: Fault, E: Sink>(fault: F, name: Option<&str>, errors: &mut E) -> Status
    ensures status { result ≡ F.status_of fault }
    ensures text { IsTold (E.state errors.old) (E.state errors.new)
        (told_text (option_map (λ text. text.now) name.entry) (F.said_of fault) (F.opening_of fault)
        (F.explanation_of fault)) }
{
    let _ = write_text(fault, name, errors);
    fault.status()
}

/// Writes the line of the fault, and what explains it.
fn write_text<F: Fault, E: Sink>(
    fault: F,
    name: Option<&str>,
    errors: &mut E,
) -> Result<(), DeviceFault>
    ensures { Writes (E.state errors.old) (E.state errors.new)
        (told_text (option_map (λ text. text.now) name.entry) (F.said_of fault) (F.opening_of fault)
        (F.explanation_of fault)) result }
{
    write_line(fault, errors)?;
    write_explanation(fault, name, errors)
}

/// Writes the line of the fault.
fn write_line<F: Fault, E: Sink>(fault: F, errors: &mut E) -> Result<(), DeviceFault>
    ensures { Writes (E.state errors.old) (E.state errors.new) (told_line (F.said_of fault)) result }
{
    write_all(errors, b"ddfarm: ")?;
    fault.write_said(errors)?;
    write_all(errors, b"\n")
}

/// Writes the line that explains a fault, if there is one.
fn write_explanation<F: Fault, E: Sink>(
    fault: F,
    name: Option<&str>,
    errors: &mut E,
) -> Result<(), DeviceFault>
    ensures { Writes (E.state errors.old) (E.state errors.new)
        (explained (option_map (λ text. text.now) name.entry) (F.explanation_of fault) (F.opening_of fault)) result }
{
    match fault.opening() {
        Some(why) => write_opening(name, why, errors),
        None => write_second_line(fault.explanation(), errors),
    }
}

/// Tells why a run could not do what was asked, if it couldn't, and answers how it ends. A file that can't be opened
/// has this name.
pub fn end<F: Fault, E: Sink>(
    answer: Result<Status, F>,
    name: Option<&str>,
    errors: &mut E,
) -> Status
    ensures { Ends F.status_of F.said_of F.opening_of F.explanation_of
        (option_map (λ text. text.now) name.entry) answer (E.state errors.old) (E.state errors.new) result }
{
    match answer {
        Ok(status) => status,
        Err(fault) => tell(fault, name, errors),
    }
}
