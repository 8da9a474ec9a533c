//! Boards and desks by their events, with the jobs and members of the search. The crate has only
//! tests. Deques step by step, with the tickets of a desk. The crate has only tests.
#![tactic(auto)]

#[cfg(test)]
mod board_trials;
#[cfg(test)]
mod rack_trials;
