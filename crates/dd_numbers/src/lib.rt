//! A list of numbers, kept in bytes while each number fits in one, and in words of 32 bits
//! otherwise.
#![tactic(auto)]

mod numbers;
mod numbers_ref;

pub use numbers::Numbers;
pub use numbers_ref::NumbersRef;
