//! What the words of a command ask for, commands on files, how a task ends, and what is said of its
//! ending.
#![tactic(auto)]

mod ending;
mod fetch;
mod file;
mod merge;
mod messages;
mod status;
mod task;
mod words;

pub use ending::Ending;
pub use fetch::{fetch_all, fetch_front};
pub use file::{write_file, write_text};
pub use merge::write_merge;
pub use messages::tell;
pub use status::Status;
pub use task::Task;
pub use words::read_task;
