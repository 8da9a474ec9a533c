use std::alloc::Global;

/// What the workers of a run work with: the threads of the machine, the allocator, and the gate
/// through which each of them goes before each job.
#[derive(Drop)]
pub struct Workshop<'a, R, G> {
    pub rt: &'a R,
    pub alloc: Global,
    pub gate: &'a G,
}
