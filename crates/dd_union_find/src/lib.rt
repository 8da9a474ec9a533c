//! Nodes that are joined part by part, by a union-find whose heads are the smallest nodes.
//!
//! A forest keeps for each node the one above it, in 4 bytes; a head is above itself. Joining puts
//! the greater of two heads below the smaller one, and each way up is halved. So a node is the
//! smallest of its part exactly if it is a head, which is one look. Contracts say what parts mean
//! by functions of nodes. Two nodes are in one part if no function that is equal at each node and
//! at the one above it differs at them.
#![tactic(auto)]

mod forests;

pub use forests::Forest;
