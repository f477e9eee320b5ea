//! A sink over a `Vec`.

ghost use Rattle.std.specs.Prelude.{◌≡◌, [], Some};

use cards::{DeviceFault, Sink};
use std::alloc::Global;

/// A sink that keeps its bytes in memory, and takes more memory as it fills. A call fails only if there is none.
#[derive(Drop)]
pub struct VecSink {
    bytes: Vec<u8>,
    failures: u64,
}

impl VecSink {
    /// An empty sink.
    pub fn new(alloc: Global) -> VecSink
        ensures { ⟦<VecSink as Sink>⟧.state result ≡ record { bytes = Some []; failed = 0 } }
    {
        VecSink {
            bytes: Vec::new(alloc),
            failures: 0,
        }
    }

    /// The bytes that it has taken.
    pub fn into_bytes(self) -> Vec<u8>
        ensures { (⟦<VecSink as Sink>⟧.state self).bytes ≡ Some result.items }
    {
        let VecSink { bytes, .. } = self;
        bytes
    }
}

impl Sink for VecSink {
    ghost state = { λ sink. record { bytes = Some sink.bytes.items; failed = sink.failures } };

    fn write(&mut self, piece: &[u8]) -> Result<usize, DeviceFault> {
        match self.bytes.extend_from_slice(piece) {
            Ok(()) => Ok(piece.len()),
            Err(_) => {
                self.failures = self.failures.saturating_add(1);
                Err(DeviceFault)
            }
        }
    }
}
