//! The one call that does all that the program does.
#![tactic(auto)]

mod exercise;
mod kept;
mod laws;
mod lone;
mod resume;
mod top;

pub use dd_suite_tasks::Status;
pub use laws::{
    a_call_of_the_program_meets_the_clauses, a_finished_chain_of_calls_writes_its_text,
    a_paused_chain_of_calls_writes_the_first_lines,
    finished_chains_of_all_shards_merge_to_the_catalogue,
};
pub use top::run;
