ghost use Rattle.std.specs.Prelude.{◌≡◌, ◌<◌, ◌≤◌, ℕ, List, Option, Bool, true, length, IfOk, OnOk};
ghost use Rattle.std.specs.Io.KnownBytes.{Appends, WriteAppends};
ghost use Rattle.dd_ports.specs.declared.sink.SinkFault.TheVariants.{Failed, Memory};
ghost use Rattle.dd_ports.specs.Causes.{HasCause, StaysSure};
ghost use Rattle.dd_ports.specs.Grows.{GrowsByPrefix};

use std::alloc::AllocError;

/// Why a write gave up.
#[derive(Clone, Copy, Debug, PartialEq, Eq)]
pub enum SinkFault {
    /// The sink failed, and counted it.
    Failed,
    /// The sink ran out of memory, and counted it.
    Memory,
}

impl From<AllocError> for SinkFault {
    ghost from_gives = { λ _ e. e ≡ Memory };

    fn from(_: AllocError) -> Self {
        SinkFault::Memory
    }
}

/// A stream of bytes to the outside.
pub trait Sink {
    /// The bytes that it holds, if they are known.
    ghost held: { Self → Option (List ℕ) };

    /// How often it has failed. It never falls.
    ghost faults: { Self → ℕ };

    /// How often it has run out of memory. It never falls.
    ghost shortages: { Self → ℕ };

    /// True if no write to come fails.
    ghost sure: { Self → Bool };

    /// Takes some bytes from the front of a piece, and answers how many.
    fn write(&mut self, piece: &[u8]) -> Result<usize, SinkFault>
        requires { 0 < length piece.now }
        ensures count { IfOk result (λ k. (0 < k) × (k ≤ length piece.now)) }
        ensures bytes { WriteAppends (held self.old) (held self.new) result piece.now }
        ensures cause { HasCause Failed (faults self.old) (faults self.new) result }
        ensures shortage { HasCause Memory (shortages self.old) (shortages self.new) result }
        ensures sure { sure self.old ≡ true
            → StaysSure Failed (faults self.old) (faults self.new) (sure self.new) result };
}

/// Writes all the bytes. After a fault the sink has taken a prefix of them.
pub fn write_all_of<O: Sink>(out: &mut O, bytes: &[u8]) -> Result<(), SinkFault>
    ensures whole { OnOk result (Appends (O.held out.old) (O.held out.new) bytes.now) }
    ensures prefix { GrowsByPrefix (O.held out.old) (O.held out.new) bytes.now }
    ensures cause { HasCause Failed (O.faults out.old) (O.faults out.new) result }
    ensures shortage { HasCause Memory (O.shortages out.old) (O.shortages out.new) result }
    ensures sure { O.sure out.old ≡ true
        → StaysSure Failed (O.faults out.old) (O.faults out.new) (O.sure out.new) result }
{
    let mut at = 0;
    while at < bytes.len() {
        at += out.write(&bytes[at..])?;
    }
    Ok(())
}
