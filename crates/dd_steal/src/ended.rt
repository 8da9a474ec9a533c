use dd_front::{Naming, Ticket};

/// How a worker ended.
#[derive(Drop)]
pub enum Ended<N: Naming> {
    /// No job was open, and no other worker had one to steal.
    Idle,
    /// Memory ran out. The ticket is the one that was outside the worker's deque, if there was one.
    Memory(Option<Ticket<N>>),
}
