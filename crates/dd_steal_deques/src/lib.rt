//! The deques of a round: each worker pushes and pops tickets at its own, and steals from the
//! others.
#![tactic(auto)]

mod drain;
mod hand;
mod joins;
mod known;
mod links;
mod owner;
mod owner_deque;
mod rack;
mod rest;
mod slot;
mod way;
mod ways;

pub use hand::Hand;
pub use known::Known;
pub use owner::Owner;
pub use rack::Rack;
pub use rest::Rest;
pub use slot::{Numbered, Slot};
pub use way::Way;
