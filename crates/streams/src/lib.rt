//! Readers and writers as sources and sinks of bytes, and the reading of a whole source.
//!
//! A [`ReaderSource`] and a [`WriterSink`] tell the bytes that their reader or writer tells; those of the process tell
//! none. Each counts its own failed calls.
#![tactic(auto)]

mod inputs;
mod opening;
mod reader_sources;
mod run_streams;
mod writer_sinks;

pub use inputs::{InputFault, equal_faults_are_one, read_all};
pub use opening::{CannotOpen, why_of};
pub use reader_sources::ReaderSource;
pub use run_streams::Streams;
pub use writer_sinks::WriterSink;
