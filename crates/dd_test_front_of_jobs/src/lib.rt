//! The front machine beside a plain list, over random lists of events. The crate has only tests.
#![tactic(auto)]

#[cfg(test)]
mod catalogue;
#[cfg(test)]
mod front_events;
#[cfg(test)]
mod front_rows;
#[cfg(test)]
mod front_trials;
#[cfg(test)]
mod plain_front;
#[cfg(test)]
mod random_actions;
#[cfg(test)]
mod search_rows;
