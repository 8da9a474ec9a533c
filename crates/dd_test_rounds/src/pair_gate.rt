use dd_ports::Gate;
use std::sync::atomic::{AtomicU64, Ordering};

/// How often a worker that is held looks for another one before it is let through by itself.
const TURNS: u64 = 200_000_000;

/// A gate that holds the first job until a second one has entered. It counts the jobs that entered,
/// and those that it let through by themselves because its turns ran out. If one thread does all
/// jobs, the first job is let through by itself.
#[derive(Drop)]
pub(crate) struct PairGate {
    entered: AtomicU64,
    alone: AtomicU64,
}

impl PairGate {
    pub(crate) fn new() -> PairGate {
        PairGate {
            entered: AtomicU64::new(0),
            alone: AtomicU64::new(0),
        }
    }

    /// Returns how many jobs entered.
    pub(crate) fn entered(&self) -> u64 {
        self.entered.load(Ordering::SeqCst)
    }

    /// Returns how many jobs were let through by themselves.
    pub(crate) fn let_through_alone(&self) -> u64 {
        self.alone.load(Ordering::SeqCst)
    }
}

impl Gate for PairGate {
    fn enter(&self, _worker: u32, _entry: u64) {
        self.entered.fetch_add(1, Ordering::SeqCst);
        for _ in 0..TURNS {
            if self.entered() > 1 {
                return;
            }
        }
        self.alone.fetch_add(1, Ordering::SeqCst);
    }
}
