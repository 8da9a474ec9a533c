//! Worked rows of files, lists, checkpoint texts, command words, sets and requests. The crate has
//! only tests.
#![tactic(auto)]

#[cfg(test)]
mod checkpoint_tests;
#[cfg(test)]
mod list_tests;
#[cfg(test)]
mod model_tests;
#[cfg(test)]
mod port_trials;
#[cfg(test)]
mod reading_tests;
#[cfg(test)]
mod words_tests;
