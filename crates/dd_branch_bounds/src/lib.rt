//! What cuts the search: bounds on the degrees of every symbol that completes a partial table, kept
//! at the ends of the paths of the table.
//!
//! Where a request limits the number of tiles or of vertices, a `Census` counts the cells that are
//! whole and the flags that an involution is known to fix. It changes with the paths: a path that
//! loses its last end is one cell more. So nothing is walked, and the census that a further image
//! would make is known before the image is put in. The proof names one chamber of each cell that
//! was counted. No end of a path is in such a cell (`AreCounted`), so the next cell is another one.
#![tactic(auto)]

mod census;
mod class_shares;
mod degrees;
mod end;
mod end_laws;
mod flag_number;
mod kept_laws;
mod link;
mod pair_paths;
mod parity;
mod path_class;
mod path_shares;
mod share_laws;
mod sieve;
mod table_paths;

pub use degrees::{SHARE_UNIT, least_degree, share_of, share_of_cell};
pub use end_laws::{
    a_closed_path_has_the_share_of_its_cell, a_path_with_a_fixed_end_has_the_share_of_a_chain,
    each_chamber_is_a_path_alone, joined_paths_have_one_share, no_path_has_more_than_the_total,
    the_total_of_the_ends_bounds_the_shares, what_holds_of_some_tables_holds_of_fewer,
};
pub use kept_laws::{shares_stay_while_a_table_is_filled, whole_cells_count};
pub use parity::parity_rules_out;
pub use path_shares::PathShares;
pub use share_laws::{
    a_cell_has_at_most_two_chambers_for_each_turn, each_cell_adds_at_most_two,
    fixed_flags_halve_a_cell, flat_symbols_have_large_shares, odd_tables_have_fixed_chambers,
};
pub use table_paths::TablePaths;
