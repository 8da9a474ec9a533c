//! Covers of symbols: the oriented cover, and the torus cover of a flat symbol.
#![tactic(auto)]

mod cover;
mod euler_laws;
mod free_sides;
mod growth;
mod join;
mod oriented_cover;
mod plane_laws;
mod settled_shifts;
mod sheets;
mod shifts;
mod side;
mod tori;
mod torus_covers;
mod torus_faults;
mod torus_laws;
mod torus_shifts;
mod visits;
mod wanted_values;

pub use cover::Cover;
pub use euler_laws::{
    euler_law, euler_numbers_are_at_most_2, oriented_symbols_have_even_euler_numbers,
};
pub use oriented_cover::{is_oriented, oriented};
pub use plane_laws::oriented_flat_symbols_have_plane_values;
pub use tori::is_torus;
pub use torus_covers::torus;
pub use torus_faults::TorusFault;
pub use torus_laws::{
    flat_symbols_are_covered_by_tori, oriented_symbols_have_one_torus_cover,
    the_rules_have_a_solution, torus_covers_are_tori,
};
pub use wanted_values::greatest_value;
