ghost use Rattle.std.specs.Prelude.{◌≡◌, ◌<◌, ◌≤◌, [], Some, Err, true, false, length, min, IfOk, IsErrOf};
ghost use Rattle.std.specs.Io.KnownBytes.{WriteAppends};
ghost use Rattle.dd_ports.specs.declared.sink.SinkFault.TheVariants.{Failed, Memory};
ghost use Rattle.dd_ports.specs.Causes.{HasCause, StaysSure};
ghost use Rattle.dd_ports.specs.Schedule.{is_over};

use crate::fault_count::FaultCount;
use crate::schedule::Schedule;
use crate::sink::{Sink, SinkFault};
use std::alloc::Global;

/// A sink in memory that takes at most `most` bytes a write, and whose writes with the listed
/// numbers fail.
#[derive(Drop)]
pub struct MemorySink {
    bytes: Vec<u8>,
    schedule: Schedule,
    most: usize,
    faults: FaultCount,
    shortages: FaultCount,
    ghost takes_some: { 0 < most },
}

impl MemorySink {
    ghost use Rattle.dd_ports.specs.Sinks.{memory_sink_held, memory_sink_fails, memory_sink_next};
    ghost use Rattle.dd_ports.specs.Sinks.{memory_sink_most};

    /// A sink that holds nothing yet. Its writes are counted from 1.
    pub fn new(alloc: Global, fails: Vec<u64>, most: usize) -> MemorySink
        requires { 0 < most }
        ensures empty { memory_sink_held result ≡ [] }
        ensures fails { memory_sink_fails result ≡ fails.items }
        ensures first { memory_sink_next result ≡ 1 }
        ensures most { memory_sink_most result ≡ most }
    {
        MemorySink {
            bytes: Vec::new(alloc),
            schedule: Schedule::new(fails),
            most,
            faults: FaultCount::new(),
            shortages: FaultCount::new(),
        }
    }

    /// All bytes that it took.
    pub fn held(&self) -> &[u8]
        ensures { result.now ≡ memory_sink_held self.now }
    {
        &self.bytes
    }
}

impl Sink for MemorySink {
    ghost use Rattle.dd_ports.specs.Sinks.{memory_sink_held, memory_sink_is_due};
    ghost use Rattle.dd_ports.specs.Sinks.{memory_sink_most, CountsWrite};

    ghost held = { λ s. Some s.bytes.items };

    ghost faults = { λ s. s.faults };

    ghost shortages = { λ s. s.shortages };

    ghost sure = { λ s. is_over s.schedule };

    fn write(&mut self, piece: &[u8]) -> Result<usize, SinkFault>
        requires { 0 < length piece.now }
        ensures count { IfOk result (λ k. (0 < k) × (k ≤ length piece.now)) }
        ensures bytes { WriteAppends
            (Some (memory_sink_held self.old)) (Some (memory_sink_held self.new))
            result piece.now }
        ensures cause { HasCause Failed self.old.faults self.new.faults result }
        ensures shortage { HasCause Memory self.old.shortages self.new.shortages result }
        ensures sure { is_over self.old.schedule ≡ true
            → StaysSure Failed self.old.faults self.new.faults (is_over self.new.schedule) result }
        ensures counted { CountsWrite self.old self.new }
        ensures most { IfOk result (λ k. k ≡ min (length piece.now) (memory_sink_most self.old)) }
        ensures due { memory_sink_is_due self.old ≡ true → result ≡ Err Failed }
        ensures not_due { memory_sink_is_due self.old ≡ false → IsErrOf result Failed → ⊥ }
    {
        let fails = self.schedule.turn();
        if fails {
            self.faults.rise();
            return Err(SinkFault::Failed);
        }
        let count = piece.len().min(self.most);
        if self.bytes.extend_from_slice(&piece[..count]).is_err() {
            self.shortages.rise();
            return Err(SinkFault::Memory);
        }
        Ok(count)
    }
}
