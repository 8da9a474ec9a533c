use crate::orders::{Boundaries, Orders};

/// The orbifold of a symbol: the data of its name.
#[derive(Drop)]
pub struct Orbifold {
    /// The handles, where the surface is orientable.
    pub handles: u32,
    /// The orders of the cones, descending.
    pub cones: Orders,
    /// The corners of each boundary, descending in the order of a dictionary.
    pub boundaries: Boundaries,
    /// The crosscaps, where the surface is not orientable.
    pub crosscaps: u32,
}
