ghost use Rattle.std.specs.Prelude.{◌≡◌, IfOk};
ghost use Rattle.dd_model.specs.Symbol.{Symbol as Tiling, operation};
ghost use Rattle.dd_model.specs.Connected.{Connected as AllReached};
ghost use Rattle.dd_model.specs.Small.{IsSmallSymbol};
ghost use Rattle.dd_quotient.specs.Dual.{dual_of, degrees_of};

use dd_model::{Index, Memory, Pair};
use dd_symbol::{Connected, Symbol, build_known_lists};
use std::alloc::Global;

/// The dual of the dual is the symbol.
pub fn dual_of_dual()
    ensures { (s : Tiling) → dual_of (dual_of s) ≡ s }
{}

/// The dual of a connected symbol is one too, with branching values of at most 30.
pub fn duals_are_connected_symbols()
    ensures symbol { (s : Tiling) → IsSmallSymbol s → IsSmallSymbol (dual_of s) }
    ensures connected { (s : Tiling) → AllReached s → AllReached (dual_of s) }
{}

/// The images of all chambers under an involution.
fn images(alloc: Global, s: &Symbol, i: Index) -> Result<Vec<u32>, Memory>
    ensures { IfOk result (λ images. images.items ≡ operation s.now i) }
{
    let mut images = Vec::with_capacity(alloc, s.size() as usize)?;
    for k in 0..s.size() {
        images.push(s.op(i, k + 1))?;
    }
    Ok(images)
}

/// The degrees of a pair at all chambers.
fn degrees(alloc: Global, s: &Symbol, pair: Pair) -> Result<Vec<u32>, Memory>
    ensures { IfOk result (λ degrees. degrees.items ≡ degrees_of s.now pair) }
{
    let mut degrees = Vec::with_capacity(alloc, s.size() as usize)?;
    for k in 0..s.size() {
        degrees.push(s.degree(pair, k + 1))?;
    }
    Ok(degrees)
}

/// The dual, on the same chambers: s0 and s2 are exchanged, and the degrees of tiles and vertices.
pub fn dual(alloc: Global, s: &Connected) -> Result<Connected, Memory>
    ensures { IfOk result (λ dual. dual ≡ dual_of s.now) }
{
    let symbol = s.symbol();
    let ops = [
        images(alloc, symbol, Index::Two)?,
        images(alloc, symbol, Index::One)?,
        images(alloc, symbol, Index::Zero)?,
    ];
    let m01 = degrees(alloc, symbol, Pair::Vertex)?;
    let m12 = degrees(alloc, symbol, Pair::Tile)?;
    build_known_lists(alloc, ops, m01, m12)
}
