ghost use Rattle.std.specs.Prelude.{◌≡◌, ℕ, ◌<◌, ◌≤◌, List, length, map, slice_index, IfOk};
ghost use Rattle.std.specs.List.{Contains};
ghost use Rattle.dd_model.specs.Symbol.{item};
ghost use Rattle.dd_model.specs.declared.pair.Pair.TheVariants.{Vertex};
ghost use Rattle.dd_cells.specs.Cells.{AreCellsOf};
ghost use Rattle.dd_lattice.specs.Lists.{AreLeftOf, AreVertexNumbers};

use crate::kinds::EdgeKind;
use dd_cells::Cell;
use dd_model::Memory;
use dd_symbol::Connected;
use std::alloc::Global;

/// The edges that are left, in order.
pub(crate) fn left_edges(
    alloc: Global,
    edges: &[u32],
    kinds: &[EdgeKind],
) -> Result<Vec<u32>, Memory>
    requires ascending { (q r : ℕ) → q < r → r < length edges.now
        → slice_index edges.now q < slice_index edges.now r }
    requires kinds { length kinds.now ≡ length edges.now }
    ensures { IfOk result (λ left. AreLeftOf edges.now kinds.now (length edges.now) left.items) }
{
    let mut left = Vec::new(alloc);
    for k in 0..edges.len() {
        if kinds[k].is_left() {
            left.push(edges[k])?;
        }
    }
    Ok(left)
}

/// Writes a number at each of some chambers.
fn write(numbers: &mut Vec<u32>, chambers: &[u32], number: u32)
    requires inside { (d : ℕ) → Contains chambers.now d
        → (1 ≤ d) × (d ≤ length numbers.old.items) }
    ensures length { length numbers.new.items ≡ length numbers.old.items }
    ensures own { (d : ℕ) → Contains chambers.now d → item numbers.new.items d ≡ number }
    ensures others { (d : ℕ) → 1 ≤ d → (Contains chambers.now d → ⊥)
        → item numbers.new.items d ≡ item numbers.old.items d }
{
    for k in 0..chambers.len() {
        numbers[chambers[k] as usize - 1] = number;
    }
}

/// For each chamber the number of its vertex.
pub(crate) fn vertex_numbers(
    alloc: Global,
    t: &Connected,
    vertices: &[Cell],
) -> Result<Vec<u32>, Memory>
    requires { AreCellsOf t.now Vertex vertices.now }
    ensures { IfOk result (λ numbers. AreVertexNumbers t.now (map (λ c. c.least) vertices.now)
        numbers.items) }
{
    let mut numbers = vec![in alloc; 0u32; t.symbol().size() as usize]?;
    for k in 0..vertices.len() {
        write(&mut numbers, vertices[k].members.as_slice(), k as u32 + 1);
    }
    Ok(numbers)
}
