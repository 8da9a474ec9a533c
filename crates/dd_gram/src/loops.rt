ghost use Rattle.std.specs.Prelude.{◌≡◌, ◌≤◌, ◌<◌, ℕ, ℤ, pos, length, slice_index, slice_index_or, IfOk, OnOk};
ghost use Rattle.dd_lattice.specs.NetOf.{IsNet};
ghost use Rattle.dd_lattice.specs.declared.net_edge.NetEdge.{NetEdge};
ghost use Rattle.dd_gram.specs.Loops.{IsLoop, HasEdgeWith};
ghost use Rattle.dd_gram.specs.Spreading.{AreWholeSteps, IsReached};

use crate::back_step::BackStep;
use crate::spread::steps_from;
use crate::torus::Torus;
use dd_lattice::NetEdge;
use dd_model::Memory;
use std::alloc::Global;

/// The place of the first edge with a shift, which there is.
pub(crate) fn edge_with(edges: &[NetEdge], x: i64, y: i64) -> usize
    requires { HasEdgeWith edges.now x y }
    ensures inside { result < length edges.now }
    ensures x { (e : NetEdge) → (slice_index_or edges.now result e).x ≡ x }
    ensures y { (e : NetEdge) → (slice_index_or edges.now result e).y ≡ y }
{
    for k in 0..edges.len() {
        if edges[k].x == x && edges[k].y == y {
            return k;
        }
    }
    // Some edge has the shift, so this return is never taken.
    0
}

/// A closed walk that passes an edge of a net, and comes back along edges without a shift.
pub(crate) fn closed_walk(alloc: Global, torus: &Torus, edge: usize) -> Result<Vec<u32>, Memory>
    requires { edge < length torus.now.net.edges.items }
    ensures few { IfOk result (λ walk. length walk.items ≤ torus.now.net.vertices) }
    ensures is_loop { IfOk result (λ walk. (is : IsNet torus.now.symbol torus.now.net) (e : NetEdge)
        → IsLoop torus.now.symbol torus.now.net is walk.items
        (slice_index_or torus.now.net.edges.items edge e).x
        (slice_index_or torus.now.net.edges.items edge e).y) }
{
    let NetEdge { from, to, .. } = torus.net.edges[edge];
    let steps = steps_from(alloc, torus, from)?;
    let mut walk = vec![in alloc; torus.edges[edge]]?;
    let mut place = to;
    for k in 0..steps.len() {
        let step = steps[steps.len() - 1 - k];
        if step.to == place {
            walk.push(step.back)?;
            place = step.from;
        }
    }
    Ok(walk)
}
