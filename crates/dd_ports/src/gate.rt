/// What a worker passes before each job. It decides nothing.
pub trait Gate {
    /// Called by a worker, counted from 1, before it begins the job of an entry.
    fn enter(&self, worker: u32, entry: u64);
}

/// A gate that lets everyone through at once.
#[derive(Clone, Copy, Debug, Default, PartialEq, Eq)]
pub struct OpenGate;

impl OpenGate {
    ghost use Rattle.dd_ports.specs.declared.gate.OpenGate.{OpenGate};
    ghost use Rattle.std.specs.Prelude.{◌≡◌};

    /// The open gate. There is no other.
    pub fn new() -> OpenGate
        ensures { (gate : OpenGate) → gate ≡ result }
    {
        OpenGate
    }
}

impl Gate for OpenGate {
    fn enter(&self, _worker: u32, _entry: u64) {}
}
