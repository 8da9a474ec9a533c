//! The texts of checkpoints, and the laws of chains of runs that resume from each other's
//! checkpoints.
#![tactic(auto)]

mod checkpoint;
mod checkpoint_reader;
mod checkpoint_writer;
mod faults;
mod laws;
mod lines;
mod ranges;
mod raw_values;
mod rows;
mod sets;
mod shard_reader;

pub use checkpoint::{Checkpoint, ResumeKind};
pub use checkpoint_reader::read_checkpoint;
pub use checkpoint_writer::{write_checkpoint, write_shard};
pub use faults::{CheckFault, ShardFault};
pub use laws::{
    a_begun_chain_makes_a_text, a_begun_chain_writes_a_front, a_chain_is_joined_once,
    a_checkpoint_has_one_text, a_checkpoint_text_tells_one_checkpoint,
    a_faulty_text_tells_no_checkpoint, a_finished_chain_writes_its_text,
    a_lone_catalogue_meets_the_clauses, a_paused_chain_writes_the_first_lines,
    a_text_has_one_fault, the_lines_to_the_end_are_the_text, what_was_written_reads_back,
};
pub use shard_reader::read_shard;
