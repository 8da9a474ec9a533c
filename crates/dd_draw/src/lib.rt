//! Exact placement of nets.
#![tactic(auto)]

mod bounded_fraction;
mod document;
mod extent;
mod first_table;
mod fractions;
mod laws;
mod place_fault;
mod placement;
mod places;
mod point;
mod rows;
mod small_net;
mod spot;
mod tables;

pub use document::svg;
pub use laws::{a_connected_net_has_one_placement, a_net_has_one_first_wide_place};
pub use place_fault::PlaceFault;
pub use placement::{MOST_VERTICES, place};
pub use places::Places;
pub use point::Point;
