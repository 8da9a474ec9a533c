//! Shards of a catalogue: their jobs, the texts of their checkpoints, and how their texts are
//! joined.
#![tactic(auto)]

mod doubles;
mod falls;
mod laws;
mod member;
mod members;
mod merge_fault;
mod merged_list;
mod sort;

pub use dd_check::{ShardFault, read_shard, write_shard};
pub use dd_front_jobs::shard_opening;
pub use laws::shards_merge_to_the_catalogue;
pub use merge_fault::MergeFault;
pub use merged_list::merge;
