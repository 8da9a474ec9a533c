/// What stopped a run that keeps checkpoints.
#[derive(Clone, Copy, Debug, PartialEq, Eq)]
pub enum RunFault {
    /// A call of the store failed, and was counted.
    Store,
    /// A write failed, and was counted.
    Sink,
    /// Out of memory.
    Memory,
}
