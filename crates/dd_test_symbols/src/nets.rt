ghost use Rattle.std.specs.Prelude.{◌≤◌};

use dd_lattice::{Net, NetEdge};
use std::alloc::{AllocError, Global};

/// A fan: two edges from vertex 1 to vertex 2, one to each later vertex, and one from each vertex
/// to the next from vertex 2 on. No edge has a shift.
pub(crate) fn fan(alloc: Global, vertices: u32) -> Result<Net, AllocError>
    requires some { 2 ≤ vertices }
    requires few { vertices ≤ 1000 }
{
    let mut edges = Vec::new(alloc);
    edges.push(NetEdge {
        from: 1,
        to: 2,
        x: 0,
        y: 0,
    })?;
    for to in 2..vertices + 1 {
        edges.push(NetEdge {
            from: 1,
            to,
            x: 0,
            y: 0,
        })?;
    }
    for from in 2..vertices {
        edges.push(NetEdge {
            from,
            to: from + 1,
            x: 0,
            y: 0,
        })?;
    }
    Ok(Net { vertices, edges })
}

/// Two vertices that two edges join, of which the second has a shift.
pub(crate) fn pair(alloc: Global) -> Result<Net, AllocError> {
    let mut edges = Vec::new(alloc);
    edges.push(NetEdge {
        from: 1,
        to: 2,
        x: 0,
        y: 0,
    })?;
    edges.push(NetEdge {
        from: 1,
        to: 2,
        x: 1,
        y: 0,
    })?;
    Ok(Net { vertices: 2, edges })
}
