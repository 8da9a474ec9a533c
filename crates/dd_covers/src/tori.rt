ghost use Rattle.std.specs.Prelude.{◌↔◌, IfOk, IsTrue};
ghost use Rattle.dd_model.specs.declared.pair.Pair.{Pair};
ghost use Rattle.dd_covers.specs.Torus.{IsSmoothAt, IsTorus};

use crate::oriented_cover::is_oriented;
use dd_cells::is_flat;
use dd_model::{Memory, Pair};
use dd_symbol::{Connected, Symbol};
use std::alloc::Global;

/// Returns whether every cell of a pair has the branching value 1.
fn is_smooth_at(symbol: &Symbol, pair: Pair) -> bool
    ensures { IsTrue result ↔ IsSmoothAt symbol.now pair }
{
    for k in 0..symbol.size() {
        if symbol.branching(pair, k + 1) != 1 {
            return false;
        }
    }
    true
}

/// Returns whether every cell of all three pairs has the branching value 1.
fn is_smooth(symbol: &Symbol) -> bool
    ensures { IsTrue result ↔ ((pair : Pair) → IsSmoothAt symbol.now pair) }
{
    if !is_smooth_at(symbol, Pair::Tile) {
        return false;
    }
    if !is_smooth_at(symbol, Pair::Vertex) {
        return false;
    }
    is_smooth_at(symbol, Pair::Edge)
}

/// Returns whether a symbol is oriented and flat, with the branching value 1 in every cell of all
/// three pairs.
pub fn is_torus(alloc: Global, s: &Connected) -> Result<bool, Memory>
    ensures { IfOk result (λ yes. IsTrue yes ↔ IsTorus s.now) }
{
    if !is_flat(s) {
        return Ok(false);
    }
    if !is_smooth(s.symbol()) {
        return Ok(false);
    }
    Ok(is_oriented(alloc, s)?)
}
