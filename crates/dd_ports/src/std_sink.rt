ghost use Rattle.std.specs.Prelude.{◌≡◌, false};

use crate::fault_count::FaultCount;
use crate::sink::{Sink, SinkFault};
use std::io::Write;

/// How many bytes are handed to a writer at once. This was measured with 32 MiB into a file. Pieces
/// of 4 MiB took 41 to 53 ms in four of five tries, and 10 ms in the fifth. Pieces of 1 MiB and
/// less took 8 to 15 ms, except in a first try.
const PIECE: usize = 262_144;

/// A writer of the system, whose faults are counted. What it holds is known if it is known of the
/// writer, and it is not known of a real stream.
#[derive(Drop)]
pub struct StdSink<W: Write + Drop> {
    inner: W,
    faults: FaultCount,
}

impl<W: Write + Drop> StdSink<W> {
    /// A sink that hands all to a writer.
    pub fn new(inner: W) -> StdSink<W>
        ensures held { ⟦<StdSink<W> as Sink>⟧.held result ≡ W.contents inner }
        ensures faults { ⟦<StdSink<W> as Sink>⟧.faults result ≡ 0 }
    {
        StdSink {
            inner,
            faults: FaultCount::new(),
        }
    }
}

impl<W: Write + Drop> Sink for StdSink<W> {
    ghost held = { λ s. W.contents s.inner };

    ghost faults = { λ s. s.faults };

    ghost shortages = { λ _. 0 };

    ghost sure = { λ _. false };

    /// A write that takes nothing counts as a fault.
    fn write(&mut self, piece: &[u8]) -> Result<usize, SinkFault> {
        let piece = &piece[..piece.len().min(PIECE)];
        match self.inner.write(piece) {
            Ok(count) if count > 0 => Ok(count),
            _ => {
                self.faults.rise();
                Err(SinkFault::Failed)
            }
        }
    }
}
