//! One attempt to open a file.

ghost use Rattle.std.specs.Prelude.{◌≡◌, false, IfOk, IfErr};
ghost use Rattle.evidence_solvers.specs.declared.access.Access.TheVariants.{ReadOnly};
ghost use Rattle.evidence_solvers.specs.Opening.{access_of, is_denied};

use crate::access::Access;
use std::fs::{Files, OpenOptions};
use streams::{CannotOpen, why_of};

/// A file, with the options that it was opened with. Only [`open_as`] makes one.
#[derive(Drop)]
pub(crate) struct OpenedAs<F> {
    file: F,
    how: OpenOptions,
}

/// Why a file could not be opened with these options. Only [`open_as`] makes one.
#[derive(Drop)]
pub(crate) struct RefusedAs {
    why: CannotOpen,
    how: OpenOptions,
}

/// Opens a file with these options.
pub(crate) fn open_as<R: Files>(
    files: &R,
    how: OpenOptions,
    path: &str,
) -> Result<OpenedAs<R::File>, RefusedAs>
    ensures opened { IfOk result (λ opened. opened.how ≡ how) }
    ensures refused { IfErr result (λ refused. refused.how ≡ how) }
{
    match how.open(files, path) {
        Ok(file) => Ok(OpenedAs { file, how }),
        Err(fault) => Err(RefusedAs {
            why: why_of(fault.kind()),
            how,
        }),
    }
}

impl<F> OpenedAs<F> {
    /// The file, and how it can be used: it can be added to if its options ask for that.
    pub(crate) fn into_parts(self) -> (F, Access)
        ensures file { result.0 ≡ self.file }
        ensures access { result.1 ≡ access_of self.how }
    {
        let OpenedAs { file, how } = self;
        if how.asks_append() {
            return (file, Access::ReadAndAdd);
        }
        (file, Access::ReadOnly)
    }
}

impl RefusedAs {
    /// Whether access is denied.
    pub(crate) fn is_denied(&self) -> bool
        ensures { result ≡ is_denied self.now.why }
    {
        matches!(self.why, CannotOpen::Denied)
    }

    /// The reason, if it is another than that access is denied.
    pub(crate) fn alone(self) -> Unopened
        requires { is_denied self.why ≡ false }
        ensures { result.why ≡ self.why }
    {
        Unopened { why: self.why }
    }

    /// The reason, after the file could not be opened to be read alone either.
    pub(crate) fn with(self, reading: RefusedAs) -> Unopened
        requires { access_of reading.how ≡ ReadOnly }
        ensures { result.why ≡ self.why }
    {
        let RefusedAs { why: _, how: _ } = reading;
        Unopened { why: self.why }
    }
}

/// Why a file can't be opened. If access is denied, it was also tried to open it to be read alone.
#[derive(Drop)]
pub(crate) struct Unopened {
    why: CannotOpen,
}

impl Unopened {
    /// The reason.
    pub(crate) fn why(&self) -> CannotOpen
        ensures { result ≡ self.now.why }
    {
        self.why
    }
}
