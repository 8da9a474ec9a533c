//! The `.ds` text of symbols.
#![tactic(auto)]

mod cells;
mod degrees;
mod fault_laws;
mod faults;
mod file_reader;
mod images;
mod least;
mod line_numbers;
mod line_writer;
mod list_lines;
mod lists;
mod outline;
mod reader;
mod symbol_text;
mod told_degrees;

pub use fault_laws::{a_faulty_file_spells_nothing, a_file_has_one_fault};
pub use faults::{FileFault, Why};
pub use file_reader::{MOST_BYTES, read_file};
pub use line_writer::{put_line, put_lines};
pub use list_lines::put_list;
