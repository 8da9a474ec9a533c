//! The definitions of the workbench, and its plain data.
#![tactic(auto)]

mod allowed;
mod allowed_laws;
mod before;
mod bytes;
mod carried_laws;
mod catalogue_laws;
mod cell_laws;
mod frame;
mod index;
mod jobs;
mod least_form_laws;
mod maps;
mod memory;
mod pair;
mod position_laws;
mod reading_laws;
mod requests;
mod symbol_codes;
mod symbol_laws;
mod tokens;
mod worked;

pub use allowed::Allowed;
pub use allowed_laws::{
    sets_from_a_number_ask_for_all_degrees_of_at_least_it, sets_with_the_same_numbers_are_equal,
};
pub use bytes::put_bytes;
pub use carried_laws::{isomorphic_copies, morphisms_compose, morphisms_keep_cells};
pub use catalogue_laws::{
    a_line_determines_its_symbol, a_position_has_one_text, a_request_has_one_catalogue,
    isomorphic_least_symbols_are_equal, lines_determine_their_symbols, lines_of_a_joined_list,
    nothing_is_before_the_beginning,
};
pub use cell_laws::{
    cells_are_classes, each_cell_has_one_branching_value, each_cell_has_one_least_chamber,
    each_cell_has_one_period, each_pair_has_one_list_of_cells,
};
pub use frame::Frame;
pub use index::Index;
pub use jobs::{Job, Position, Prefix};
pub use least_form_laws::{
    each_start_has_one_numbering, each_symbol_has_a_least_form, each_table_has_one_least_form,
    each_wanted_symbol_has_one_member,
};
pub use maps::Map;
pub use memory::Memory;
pub use pair::Pair;
pub use position_laws::{a_position_parts_jobs, not_being_before_a_position_is_closed_upward};
pub use reading_laws::{
    a_file_of_one_symbol, a_file_spells_one_list, comments_spell_nothing, lines_read_back,
};
pub use requests::Request;
pub use symbol_codes::Code;
pub use symbol_laws::{isomorphic_is_equivalence, least_forms_are_unique, order_is_total};
pub use tokens::{Numeral, Part, Placed};
pub use worked::{
    single_chambers_are_three, squares_have_a_symbol, truncated_squares_backwards_are_not_least,
    truncated_squares_have_a_symbol,
};
