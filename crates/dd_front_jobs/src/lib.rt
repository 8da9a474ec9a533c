//! First-visit prefixes of codes, the jobs with which the search for a catalogue begins, and the
//! pace at which they are done.
#![tactic(auto)]

mod laws;
mod numbering;
mod openings;
mod pace;
mod portions;
mod shards;

pub use laws::{each_job_is_of_one_shard, the_only_shard_is_the_whole};
pub use numbering::{can_follow, greatest, is_first_visit};
pub use openings::{child, is_opening, opening, shard_opening};
pub use pace::Pace;
pub use portions::Portion;
pub use shards::Shard;
