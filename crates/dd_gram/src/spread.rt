ghost use Rattle.std.specs.Prelude.{◌≡◌, ◌≤◌, ◌<◌, ◌↔◌, ℕ, true, false, IsTrue, length, MatchOption, IfOk};
ghost use Rattle.dd_model.specs.Symbol.{IsChamber};
ghost use Rattle.dd_lattice.specs.Nets.{IsNetVertex};
ghost use Rattle.dd_gram.specs.Spreading.{flag, IsStill, IsNewStep, AreLevel, AreWholeSteps, IsOver};

use crate::back_step::BackStep;
use crate::torus::Torus;
use dd_lattice::NetEdge;
use dd_model::{Index, Memory};
use dd_symbol::Symbol;
use std::alloc::Global;

/// Returns whether an edge has no shift.
fn is_still(edge: NetEdge) -> bool
    ensures { IsTrue result ↔ IsStill edge }
{
    edge.x == 0 && edge.y == 0
}

/// Returns whether a vertex is met.
fn is_met(met: &[bool], vertex: u32) -> bool
    requires low { 1 ≤ vertex }
    requires high { vertex ≤ length met.now }
    ensures { result ≡ flag met.now vertex }
{
    met[vertex as usize - 1]
}

/// The step along the edge of a chamber: as the chamber passes it, or the other way.
fn step_over(symbol: &Symbol, edge: NetEdge, chamber: u32, ahead: bool) -> BackStep
    requires { IsChamber symbol.now chamber }
    ensures { IsOver symbol.now edge chamber ahead result }
{
    if ahead {
        BackStep {
            back: symbol.op(Index::Zero, chamber),
            from: edge.from,
            to: edge.to,
        }
    } else {
        BackStep {
            back: chamber,
            from: edge.to,
            to: edge.from,
        }
    }
}

/// A step from a vertex that is met to one that is not, along the first edge that allows one.
fn next_step(torus: &Torus, met: &[bool]) -> Option<BackStep>
    requires { length met.now ≡ torus.now.net.vertices }
    ensures { MatchOption result (AreLevel torus.now.net met.now)
        (λ step. IsNewStep torus.now.symbol torus.now.net met.now step) }
{
    let symbol = torus.symbol.symbol();
    let edges = torus.edges.as_slice();
    for k in 0..edges.len() {
        let edge = torus.net.edges[k];
        let from = is_met(met, edge.from);
        let to = is_met(met, edge.to);
        if is_still(edge) && from != to {
            return Some(step_over(symbol, edge, edges[k], from));
        }
    }
    None
}

/// Steps along edges without a shift from one vertex of a net to all others.
///
/// It goes over the edges of the net at most once for each vertex.
pub(crate) fn steps_from(alloc: Global, torus: &Torus, root: u32) -> Result<Vec<BackStep>, Memory>
    requires { IsNetVertex torus.now.net root }
    ensures { IfOk result (λ steps. AreWholeSteps torus.now.symbol torus.now.net root steps.items) }
{
    let mut met = vec![in alloc; false; torus.net.vertices as usize]?;
    let mut steps = Vec::new(alloc);
    met[root as usize - 1] = true;
    while let Some(step) = next_step(torus, &met) {
        met[step.to as usize - 1] = true;
        steps.push(step)?;
    }
    Ok(steps)
}
