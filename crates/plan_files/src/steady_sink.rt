// A sink in memory, of which no write fails.
ghost use Rattle.std.specs.Prelude.{◌≡◌, [], Some};

use crate::sink::Sink;
use crate::sink_fault::SinkFault;
use std::alloc::Global;
use std::marker::Model;

/// A sink that keeps the pieces in memory. Contracts see it as the bytes that it took; only memory
/// can be refused.
#[derive(Debug, Drop)]
pub struct SteadySink {
    bytes: Vec<u8>,
}

impl Model for SteadySink {
    ghost use Rattle.std.specs.Prelude.{List, ℕ};

    ghost Value = { List ℕ };

    ghost view = { λ sink. sink.bytes.items };
}

impl SteadySink {
    /// Nothing was written yet.
    pub fn new(alloc: Global) -> SteadySink
        ensures { result ≡ [] }
    {
        SteadySink {
            bytes: Vec::new(alloc),
        }
    }

    /// The bytes that were written.
    pub fn bytes(&self) -> &[u8]
        ensures { result.now ≡ self.now }
    {
        self.bytes.as_slice()
    }
}

impl Sink for SteadySink {
    ghost written = { λ bytes. Some bytes };

    ghost faults = { λ _. 0 };

    fn write(&mut self, piece: &[u8]) -> Result<(), SinkFault> {
        self.bytes.extend_from_slice(piece)?;
        Ok(())
    }
}
