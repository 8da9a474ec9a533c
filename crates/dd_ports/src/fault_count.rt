ghost use Rattle.std.specs.Prelude.{◌≡◌, ℕ, ◌≤◌};

use std::marker::Model;

/// How often something has failed, or has run out of memory. At the last value of its type the
/// count stays.
#[derive(Clone, Copy, Debug, PartialEq, Eq)]
pub(crate) struct FaultCount {
    count: u64,
}

impl Model for FaultCount {
    ghost Value = { ℕ };

    ghost view = { λ c. c.count };

    ghost inverse = { λ n. record { count = n } };
}

impl FaultCount {
    ghost use Rattle.dd_ports.specs.Causes.{Rose};

    pub(crate) fn new() -> FaultCount
        ensures { result ≡ 0 }
    {
        FaultCount { count: 0 }
    }

    /// Counts one more fault.
    pub(crate) fn rise(&mut self)
        ensures rose { Rose self.old self.new }
        ensures later { self.old ≤ self.new }
    {
        self.count = self.count.saturating_add(1);
    }
}
