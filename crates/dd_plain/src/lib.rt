//! The catalogue of up to three chambers, by a plain filter over everything that could be a member;
//! and whether a symbol is one that a request asks for.
#![tactic(auto)]

mod ascending_list;
mod branching;
mod choices;
mod filter;
mod leastness;
mod trials;
mod wanted;

pub use choices::each_list_has_a_number;
pub use filter::plain_catalogue;
pub use wanted::is_wanted;
