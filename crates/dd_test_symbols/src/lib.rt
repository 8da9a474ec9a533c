//! Worked rows of symbols, of their lines, and of nets that are placed. The crate has only tests.
#![tactic(auto)]

#[cfg(test)]
mod answer_tests;
#[cfg(test)]
mod edge_tests;
#[cfg(test)]
mod gram_tests;
#[cfg(test)]
mod limit_tests;
#[cfg(test)]
mod line_tests;
#[cfg(test)]
mod net_tests;
#[cfg(test)]
mod nets;
#[cfg(test)]
mod placing_tests;
#[cfg(test)]
mod symbol_tests;
#[cfg(test)]
mod symbols;
