//! The orbifold of a symbol, and its name in Conway's notation.
//!
//! The cones are the cycles with a value above 1. The boundaries run along flags, places where an
//! involution fixes a chamber: each chain of a pair joins two of them, and its value is a corner if
//! it is above 1. The Euler number and the orientation determine the handles or crosscaps.
#![tactic(auto)]

mod boundaries;
mod chains;
mod cones;
mod flags;
mod joints;
mod laws;
mod measurement;
mod names;
mod orbifolds;
mod orders;
mod rotations;
mod rounds;
mod surface;

pub use laws::a_symbol_has_one_orbifold;
pub use measurement::orbifold;
pub use names::name;
pub use orbifolds::Orbifold;
pub use orders::{Boundaries, Orders};
