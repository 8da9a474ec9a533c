//! What the commands on files write: from the bytes of a file to the text, or to why there is none.
#![tactic(auto)]

mod command_fault;
mod commands;
mod drawings;
mod facts;
mod file_laws;
mod file_text;
mod info;
mod merge_refusal;
mod merged;
mod merged_lines;
mod refusals;
mod shard_laws;
mod sheet_lines;
mod stop;
mod symbol_commands;
mod totals;

pub use command_fault::CommandFault;
pub use commands::{FileCommand, SymbolCommand};
pub use facts::Facts;
pub use file_laws::{
    a_refused_file_has_no_text, canon_tells_classes_apart, merged_once,
    refused_files_have_no_merged_text, the_dual_is_made_by_its_table, written_once,
};
pub use file_text::text_of_file;
pub use info::group_of;
pub use merge_refusal::MergeRefusal;
pub use merged::merge_files;
pub use refusals::{SymbolFault, SymbolRefusal};
pub use shard_laws::texts_of_shards_merge_to_the_catalogue;
pub use stop::Stop;
pub use totals::Totals;
