//! The cells of a symbol, their numbers, the Euler number, the curvature and the orientation.
#![tactic(auto)]

mod cell;
mod cell_chambers;
mod cell_list;
mod colorings;
mod counts;
mod curvatures;
mod fractions;
mod laws;
mod orientations;

pub use cell::Cell;
pub use cell_chambers::CellChambers;
pub use cell_list::cells;
pub use colorings::orientation;
pub use counts::{count, euler, has_at_most};
pub use curvatures::{COMMON_MULTIPLE, curvature, is_flat};
pub use fractions::Fraction;
pub use laws::{
    a_pair_determines_its_cells, a_symbol_determines_its_curvature, cells_have_sizes,
    fixed_chambers_are_the_ends_of_chains, the_curvature_is_that_of_the_surface,
};
pub use orientations::Orientation;
