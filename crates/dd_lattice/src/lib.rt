//! Nets of tori: which edges are tree edges, crossing edges and left, and the shifts.
#![tactic(auto)]

mod crossing;
mod edge_lists;
mod growth;
mod kinds;
mod laws;
mod net;
mod net_edge;
mod net_shifts;
mod paths;
mod step;

pub use kinds::{EdgeKind, edge_kinds};
pub use laws::{a_torus_has_one_net, shifts_are_the_one_choice, two_edges_of_a_torus_are_left};
pub use net::Net;
pub use net_edge::NetEdge;
pub use net_shifts::shifts;
