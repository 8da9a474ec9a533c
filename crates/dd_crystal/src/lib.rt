//! What crystallographers expect of flat tilings: the orders of rotations, and the fewest sheets of
//! a torus above a tiling.
//!
//! A flat tiling has rotations of order 1, 2, 3, 4 and 6 only. Each torus that covers a symbol has
//! a number of sheets that is a multiple of the number that `sheets` returns, and the torus cover
//! has exactly this number. So the number is the order of the point group.
#![tactic(auto)]

mod any_branching_laws;
mod branching;
mod sheet_count;
mod sheet_laws;
mod sheets_faults;

pub use any_branching_laws::the_branching_clauses_leave_nothing_out;
pub use branching::{flat_branching, flat_symbols_have_crystallographic_values};
pub use sheet_count::sheets;
pub use sheet_laws::{morphisms_have_sheets, torus_covers_have_the_fewest_sheets};
pub use sheets_faults::SheetsFault;
