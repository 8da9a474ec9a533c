//! Words of operations: "truncate the ambo" is the word `ta`. The last letter is done first.
//!
//! The tables of two operations, one after the other, are one table. `compose` makes it, and
//! `apply_word` applies it.
#![tactic(auto)]

mod application;
mod composition;
mod laws;
mod letters;
mod words;

pub use application::apply_word;
pub use composition::compose;
pub use laws::{duals_have_the_same_ambo, tables_compose, texts_spell_one_word};
pub use letters::Letter;
pub use words::OpWord;
