ghost use Rattle.std.specs.Prelude.{◌≡◌, ◌↔◌, ◌≤◌, ℕ, IfOk, IsTrue};
ghost use Rattle.dd_model.specs.Symbol.{IsChamber, degree};
ghost use Rattle.dd_model.specs.Allowed.{IsIn};
ghost use Rattle.dd_model.specs.Wanted.{Wanted};
ghost use Rattle.dd_plain.specs.Passes.{Passes};

use crate::branching::has_crystallographic_cells;
use dd_cells::{has_at_most, is_flat};
use dd_model::{Allowed, Memory, Pair, Request};
use dd_quotient::is_minimal;
use dd_symbol::Connected;
use std::alloc::Global;

/// Returns whether each degree of a pair is in a set.
fn has_degrees_in(s: &Connected, pair: Pair, set: &Allowed) -> bool
    ensures { IsTrue result ↔ ((d : ℕ) → IsChamber s.now d → IsIn set.now (degree s.now pair d)) }
{
    let symbol = s.symbol();
    for k in 0..symbol.size() {
        if !set.has(symbol.degree(pair, k + 1)) {
            return false;
        }
    }
    true
}

/// Returns whether a symbol is wanted, but for what is asked of minimality.
fn passes(q: &Request, s: &Connected) -> bool
    ensures { IsTrue result ↔ Passes q.now s.now }
{
    s.symbol().size() <= q.chambers
        && is_flat(s)
        && has_degrees_in(s, Pair::Tile, &q.faces)
        && has_degrees_in(s, Pair::Vertex, &q.degrees)
        && has_crystallographic_cells(s, Pair::Tile)
        && has_crystallographic_cells(s, Pair::Vertex)
        && has_at_most(s, Pair::Tile, q.tiles)
        && has_at_most(s, Pair::Vertex, q.vertices)
}

/// Returns whether a symbol is one that a request asks for.
pub fn is_wanted(alloc: Global, q: &Request, connected: &Connected) -> Result<bool, Memory>
    ensures { IfOk result (λ yes. IsTrue yes ↔ Wanted q.now connected.now) }
{
    Ok(passes(q, connected) && (!q.minimal || is_minimal(alloc, connected)?))
}
