//! The degrees of a whole table: from one table of involutions to the members of a catalogue that
//! have these involutions.
//!
//! If the table is whole, its own properties come first:
//!
//! - leastness, and from which chambers it is numbered as it is, its ties (`ties` of
//!   dd_branch_tables, by the traversals that the search makes anyway, in bytes);
//! - then chambers and classes. The classes are counted by the places of the degrees, each of which
//!   has sides at one chamber, so no cell is walked again (`has_limits`).
//!
//! Then an `Assignment` goes down its cells, those of the tiles first, by branching numbers 1, 2,
//! 3, 4 and 6. Flatness is a budget: over all cells, 12/v for a chain and 24/v for a cycle add up
//! to 6 for each chamber. A branching number is tried only if what is spent with it, and what the
//! later cells can spend, meet the budget. So each assignment that comes to its end is flat, and
//! the branching number of the last cell is forced.
//!
//! - **What is handed down** is what the remaining cells have to take beyond their least, which is
//!   2 for each side. What a branching number takes beyond that is its share. The shares that a
//!   cell may have are bits of a word (`DegreeSlot`).
//! - **What later cells can spend** beyond their least is kept as bits too, for amounts below 64.
//!   Each cell has one set, made once a table from the last cell to the first (`LaterBudgets`). So
//!   one shift and one AND give all shares that fit. This is exact near the end, where most
//!   assignments would fail.
//! - **If only one share fits**, the search takes it and goes down without a branch (`go_down`). If
//!   several do, it tries each.
//! - **Degrees.** The degree of the least chamber of a cell is set, and at once the others of the
//!   cell that follow.
//! - **At the end** only the degrees go into the list, which keeps their table once (`SymbolList`),
//!   and nothing that is known of them is tested. Two questions are left: whether a numbering from
//!   a tie is smaller, and minimality if the request asks for it.
//! - **Ties.** Where the chambers of a table go, if chamber 1 goes to a tie, is found once for all
//!   its members (`Ties`, one `Automorphism` for each). So only their degrees are compared, and a
//!   symbol is made only if minimality is asked for.
//! - **Minimality.** Most symbols have a chamber that differs from each other one in its degrees or
//!   in those across its edge. Then no two are alike. Classes of chambers are refined only for the
//!   rest.
#![tactic(auto)]

mod assignment;
mod automorphisms;
mod later_budgets;
mod limits;
mod members;
mod minimality;
mod places;
mod table;
mod ties;

pub use automorphisms::Automorphism;
pub use members::{add_members_of, add_tied, members_of, with_places};
pub use places::DegreeSlot;
pub use table::Table;
pub use ties::Ties;
