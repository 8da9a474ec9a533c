ghost use Rattle.std.specs.Prelude.{◌≡◌, [], Some, true};

use crate::fault_count::FaultCount;
use crate::sink::{Sink, SinkFault};
use std::alloc::Global;

/// A sink in memory that never fails but for lack of memory.
#[derive(Drop)]
pub struct SureSink {
    bytes: Vec<u8>,
    shortages: FaultCount,
}

impl SureSink {
    ghost use Rattle.dd_ports.specs.Sinks.{sure_sink_held};

    /// A sink that holds nothing yet.
    pub fn new(alloc: Global) -> SureSink
        ensures { sure_sink_held result ≡ [] }
    {
        SureSink {
            bytes: Vec::new(alloc),
            shortages: FaultCount::new(),
        }
    }

    /// All bytes that it took.
    pub fn held(&self) -> &[u8]
        ensures { result.now ≡ sure_sink_held self.now }
    {
        &self.bytes
    }
}

impl Sink for SureSink {
    ghost held = { λ s. Some s.bytes.items };

    ghost faults = { λ _. 0 };

    ghost shortages = { λ s. s.shortages };

    ghost sure = { λ _. true };

    fn write(&mut self, piece: &[u8]) -> Result<usize, SinkFault> {
        if self.bytes.extend_from_slice(piece).is_err() {
            self.shortages.rise();
            return Err(SinkFault::Memory);
        }
        Ok(piece.len())
    }
}
