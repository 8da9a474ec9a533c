//! Worked rows of openings, prefixes, tables and shares, and how soon the search turns back. The
//! crate has only tests.
#![tactic(auto)]

#[cfg(test)]
mod codes;
#[cfg(test)]
mod fixtures;
#[cfg(test)]
mod member_rows;
#[cfg(test)]
mod search_rows;
#[cfg(test)]
mod share_trials;
#[cfg(test)]
mod table_tests;
#[cfg(test)]
mod tie_rows;
