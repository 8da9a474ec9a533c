//! Workers that steal, and rounds, with the jobs and members of the search. The crate has only
//! tests.
#![tactic(auto)]

#[cfg(test)]
mod pair_gate;
#[cfg(test)]
mod round_trials;
#[cfg(test)]
mod run_trials;
