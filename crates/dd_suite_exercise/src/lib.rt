//! What `exercise` writes: symbols made by the draws of a generator, and what came out.
#![tactic(auto)]

mod changes;
mod coverings;
mod draws;
mod exercise_text;
mod items;
mod laws;
mod renumbering;
mod seeds;
mod tallies;

pub use exercise_text::exercise;
pub use laws::{
    a_symbol_has_one_group_name, an_exercise_has_one_text, each_exercise_has_a_text,
    items_have_at_most_384_chambers, there_are_18_seeds,
};
