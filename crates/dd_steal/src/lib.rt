//! Workers over a board, which steal from each other, the sweep of what they leave, and rounds.
#![tactic(auto)]

mod alone;
mod choice;
mod crew;
mod ended;
mod last_sweep;
mod round;
mod ticket_search;
mod tuning;
mod worker;

pub use alone::find_each;
pub use ended::Ended;
pub use last_sweep::sweep;
pub use round::run_round;
pub use worker::work;
