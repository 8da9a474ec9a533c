//! The walk over the tables of involutions under a prefix of a code.
#![tactic(auto)]

mod cells;
mod laws;
mod next_table;
mod splits;
mod table_search;
mod tables;
mod walk;

pub use dd_branch_degrees::Table;
pub use dd_front_jobs::{child, is_opening, opening};
pub use laws::{each_least_code_begins_with_one_job, each_member_has_one_table};
pub use splits::children;
pub use tables::Tables;
pub use walk::{Walk, tables_under};
