//! The whole program over stores and sinks in memory that fail, and chains of runs that are driven.
//! The crate has only tests.
#![tactic(auto)]

#[cfg(test)]
mod catalogue_tests;
#[cfg(test)]
mod chain_tests;
#[cfg(test)]
mod drive_trials;
#[cfg(test)]
mod fixtures;
#[cfg(test)]
mod message_tests;
#[cfg(test)]
mod round_tests;
#[cfg(test)]
mod run_tests;
