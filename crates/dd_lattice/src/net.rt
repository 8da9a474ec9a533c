ghost use Rattle.dd_lattice.specs.Joined.{AreJoined};

use crate::net_edge::NetEdge;

/// The net of a torus: its vertices, and edges from one to another with whole shifts. There is a
/// vertex or more, and the edges join all of them.
#[derive(Drop)]
pub struct Net {
    /// How many vertices it has. They are numbered from 1.
    pub vertices: u32,
    /// The edges.
    pub edges: Vec<NetEdge>,
    ghost joined: { AreJoined vertices edges.items },
}
