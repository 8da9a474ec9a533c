//! The desk of a round, at which workers take, split, finish and give back jobs, and the board
//! that locks it.
#![tactic(auto)]

mod board;
mod books;
mod copies;
mod counted;
mod desk;
mod out_entries;
mod seat;
mod seats;
mod shares;

pub use board::Board;
pub use books::{Blanks, Books};
pub use desk::Desk;
pub use seat::Seat;
pub use shares::Shares;
