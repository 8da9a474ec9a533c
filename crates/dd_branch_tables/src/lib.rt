//! Partial tables of involutions, the prefixes of codes that determine them, and the search over
//! such prefixes.
#![tactic(auto)]

mod chamber_set;
mod collecting_search;
mod first_numbers;
mod level;
mod levels;
mod partial_table;
mod prefix_search;
mod search_steps;
mod sleepers;
mod starts;
mod stem;
mod traversal;
mod whole_stems;

pub use chamber_set::ChamberSet;
pub use collecting_search::{CollectingSearch, find};
pub use level::Level;
pub use levels::Levels;
pub use partial_table::{PartialTable, index_at, place_of};
pub use prefix_search::PrefixSearch;
pub use search_steps::{advance, begin, go_back};
pub use starts::Starts;
pub use stem::Stem;
pub use traversal::{FirstVisits, Standing, stand};
pub use whole_stems::{involutions, is_least, ties};
