//! Symbols, and the connected ones.
//!
//! A symbol is one list, its code: the images s0(1), s1(1), s2(1), s0(2) to s2(n), then the degrees
//! of the tiles and those of the vertices at the chambers 1 to n.
//!
//! - **`Numbers`** keeps such a list in bytes up to the first number over 255, and in words from
//!   then on. Up to 110 bytes, the code of a symbol of 22 chambers, lie in the value itself. A
//!   larger symbol has one vector.
//! - **`Involutions`** is such a list whose images are known to be involutions of the chambers 1 to
//!   n, so no function of it has that as a requirement. If nothing follows the images, its degrees
//!   are empty. A `CodeTable` has as many degrees as chambers.
//! - **Reading.** The code and the order read the list as it is. `Symbol::images` gives the three
//!   images of a chamber at once. A reader that reads a symbol over and over, such as a traversal
//!   from each start, has it lent (`SymbolRef`). The traversal then asks once whether it is kept in
//!   bytes or in words, and each read is one place of a slice.
//! - **Contracts** see a record of a size and five lists. Nothing above `impl Model` names the one
//!   list.
//!
//! `build` tests the images first, makes the involutions, and then tests commuting, connectedness
//! and degrees. Callers that know more test less:
//!
//! - A reader of files has involutions. It calls `build_on`.
//! - A caller may know that the degrees fit if the involutions commute and are connected. It calls
//!   `build_fitting`.
//! - The search has the involutions of a whole stem (`involutions` of dd_branch_tables). It calls
//!   `from_known_bytes`.
//! - A caller may have a table (`Table::known`) and the turns of its places. It calls
//!   `build_known`. `with_places` of dd_branch_degrees counts the turns. It walks each cell once.
//! - A caller may have lists that it made from those of a symbol. It calls `build_known_lists`.
//! - A caller may have the degrees of a symbol with the same involutions. It calls
//!   `with_known_degrees`, which copies the images.
#![tactic(auto)]

mod before;
mod cells;
mod code_rows;
mod code_table;
mod connected;
mod construction;
mod degrees;
mod involutions;
mod kind;
mod maps;
mod range_checks;
mod refusals;
mod renumbering;
mod shapes;
mod symbol;
mod symbol_ref;
mod walk;

pub use connected::Connected;
pub use construction::{build, build_fitting, build_known, build_known_lists, build_on};
pub use involutions::{ImageLists, Involutions};
pub use kind::Kind;
pub use maps::{inverse, is_bijection, item};
pub use refusals::{Refusal, refusals_exclude_each_other};
pub use shapes::CellShape;
pub use symbol::{MOST_CHAMBERS, Symbol, cmp_code};
pub use symbol_ref::SymbolRef;
