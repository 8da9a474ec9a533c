//! Symmetries of tori: what they do to shifts, and the shape of a cell that they keep.
#![tactic(auto)]

mod back_step;
mod basis;
mod carried;
mod edge_numbers;
mod forms;
mod frames;
mod grams;
mod laws;
mod loops;
mod matrices;
mod spread;
mod torus;

pub use carried::carry;
pub use forms::{Gram, Matrix};
pub use frames::own_frame;
pub use grams::gram;
pub use laws::{
    a_form_gives_one_frame, a_form_is_positive, a_form_is_that_of_one_list,
    each_symmetry_has_one_matrix, symmetries_keep_the_form,
};
pub use matrices::matrix;
