//! Lists of connected symbols. Symbols with the same involutions share one table of them.
//!
//! A `SymbolList` keeps the members of a catalogue. Take members that follow each other and have
//! the same involutions. One of them is kept whole, their table. Each of them keeps only its
//! degrees, two bytes a chamber, one after the other in one piece of memory.
//!
//! - A series, kept once a table, has the number of symbols and bytes before it, and so where each
//!   of its symbols has its degrees.
//! - A table and one slice of degrees are pushed, and for the next members of the table only their
//!   degrees (`push_alike`). So no symbol is made of a member between the search and its line, and
//!   tables are compared once.
//! - The value of a list is the list of symbols. `Symbols` is a part of such a list, as a slice is.
//!   `Alike` are those of its symbols from a place on that have one table, so that a loop over a
//!   list looks a series up once. `Listed` is one symbol: a table and two slices.
//! - `SameInvolutions` (dd_model) carries what is known of involutions to each symbol that has
//!   them.
#![tactic(auto)]

mod alike;
mod listed;
mod series;
mod symbol_list;
mod symbols;

pub use alike::Alike;
pub use listed::Listed;
pub use symbol_list::SymbolList;
pub use symbols::Symbols;
