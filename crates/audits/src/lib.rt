//! The tables of a tournament from the evidence that was kept of it.
//!
//! Nothing is searched and nothing is trusted: a number is written only where the certificates of the evidence show it.
#![tactic(auto)]

mod auditing;
mod batches;
mod boards;
mod faults;
mod firsts;
mod judging;
mod publishing;
mod reading;
mod showing;

pub use auditing::audit_tables;
pub use faults::AuditFault;
pub use reading::EvidenceRead;
pub use showing::show_evidence;
