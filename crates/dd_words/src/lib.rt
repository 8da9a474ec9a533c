//! The words of a command line, and the commands that they ask for.
#![tactic(auto)]

mod apps;
mod command_reader;
mod commands;
mod fault;
mod given;
mod laws;
mod layouts;
mod names;
mod places;
mod requests;
mod sets;
mod settings;
mod values;
mod verbs;

pub use command_reader::read_words;
pub use commands::{Command, FileKind};
pub use fault::WordsFault;
pub use laws::{taken_requests_are_valid, words_ask_for_one_command};
pub use names::{Name, Names};
