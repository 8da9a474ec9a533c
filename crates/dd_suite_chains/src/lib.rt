//! Chains of runs over a store in memory, each run into a sink of its own, and what they write
//! together.
#![tactic(auto)]

mod after_run;
mod chain;
mod driven;
mod driver;
mod parts;
mod runs;
mod words;

pub use driven::Drive;
pub use driver::drive;
