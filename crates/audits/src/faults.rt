//! Why no tables were made of evidence.

use tournaments::MakeFault;

/// Why no tables were made of evidence. With all but a sink that failed nothing was written.
#[derive(Clone, Copy, Debug, PartialEq, Eq)]
pub enum AuditFault {
    /// The boards could not be read, memory ran out, or the sink failed.
    Page(MakeFault),
    /// The evidence could not be read to its end.
    Evidence,
}
