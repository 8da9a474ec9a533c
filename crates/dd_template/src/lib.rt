//! Operations on tilings, given by tables.
#![tactic(auto)]

mod application;
mod constants;
mod curvature;
mod decision;
mod entries;
mod joined;
mod lawful;
mod laws;
mod made_laws;
mod named;
mod operations;
mod part_number;
mod tables;
mod undone;
mod words;

pub use application::{ApplyFault, apply};
pub use constants::{AMBO, CHAMFER, DUAL, TRUNCATE};
pub use decision::is_lawful;
pub use laws::{
    ambo_of_triangles, dual_is_lawful, duals_are_made, fractions_are_whole_numbers_of_parts,
    parts_are_met_again, truncated_squares_are_made, words_have_one_reduced_word,
};
pub use made_laws::{
    branching_values_stay_small, chambers_are_parts_of_chambers,
    connected_symbols_are_made_of_connected_symbols, flat_symbols_are_made_of_flat_symbols,
    parts_go_by_their_moves, parts_have_the_branching_values_of_their_chambers,
    symbols_are_made_of_symbols, the_curvature_stays, words_act_by_their_reduced_words,
};
pub use named::tables_have_names;
pub use operations::{Operation, operations_are_lawful};
pub use tables::{Degree, Move, MultipleOf, Template};
