ghost use Rattle.std.specs.Prelude.{◌≡◌, ◌⊎◌, ℕ, ◌+◌, ◌-◌, ◌*◌, ◌<◌, ◌≤◌, length, slice_index, IfOk};
ghost use Rattle.dd_model.specs.declared.pair.Pair.{Pair};
ghost use Rattle.dd_model.specs.Cell.{IsBranching};
ghost use Rattle.dd_model.specs.Symbol.{IsChamber, op, first, second};
ghost use Rattle.dd_covers.specs.PlaneValues.{IsGreatestValue};
ghost use Rattle.dd_covers.specs.Wanting.{IsGreatestTo, IsWantedAt, AreWanted};

use crate::free_sides::cell_number;
use dd_model::{Memory, Pair};
use dd_symbol::Connected;
use std::alloc::Global;

/// Returns the greatest branching value of the cells of all three pairs: tiles, vertices and edges.
/// It takes no memory.
pub fn greatest_value(s: &Connected) -> u32
    ensures { IsGreatestValue s.now result }
{
    let symbol = s.symbol();
    let mut greatest = symbol.branching(Pair::Tile, 1);
    for j in 0..symbol.size() {
        greatest = greater_value(s, j + 1, greatest);
    }
    greatest
}

/// The greatest of a value and of the branching values at a chamber.
fn greater_value(s: &Connected, chamber: u32, so_far: u32) -> u32
    requires chamber { IsChamber s.now chamber }
    requires so_far { IsGreatestTo s.now (chamber - 1) so_far }
    ensures { IsGreatestTo s.now chamber result }
{
    let images = s.symbol().images(chamber);
    let tile = greater_at(s, Pair::Tile, chamber, images[0].min(images[1]), so_far);
    let vertex = greater_at(s, Pair::Vertex, chamber, images[1].min(images[2]), tile);
    greater_at(s, Pair::Edge, chamber, images[0].min(images[2]), vertex)
}

/// The greatest of a value and of the branching value of a pair at a chamber. The cell is not
/// walked if a neighbor in it is smaller, since it was walked from there, or if the degree is no
/// greater.
fn greater_at(s: &Connected, pair: Pair, chamber: u32, neighbor: u32, so_far: u32) -> u32
    requires chamber { IsChamber s.now chamber }
    requires neighbor { (neighbor ≡ op s.now (first pair) chamber)
        ⊎ (neighbor ≡ op s.now (second pair) chamber) }
    requires so_far { IsGreatestTo s.now (chamber - 1) so_far }
    ensures so_far { IsGreatestTo s.now (chamber - 1) result }
    ensures higher { so_far ≤ result }
    ensures own { (v : ℕ) → IsBranching s.now pair chamber v → v ≤ result }
{
    let symbol = s.symbol();
    if neighbor < chamber {
        return so_far;
    }
    if symbol.degree(pair, chamber) <= so_far {
        return so_far;
    }
    so_far.max(symbol.branching(pair, chamber))
}

/// Writes down what is wanting at the cell of a chamber while no side has a shift.
fn want(wants: &mut Vec<u32>, s: &Connected, k: u32, pair: Pair, chamber: u32)
    requires some { 1 ≤ k }
    requires chamber { IsChamber s.now chamber }
    requires size { length wants.old.items ≡ 3 * (s.now.size + 1) }
    requires few { (n : ℕ) → slice_index wants.old.items n < k }
    ensures size { length wants.new.items ≡ 3 * (s.now.size + 1) }
    ensures few { (n : ℕ) → slice_index wants.new.items n < k }
    ensures own { IsWantedAt s.now k wants.new.items pair chamber }
    ensures kept { (p : Pair) (d : ℕ) → IsChamber s.now d
        → IsWantedAt s.now k wants.old.items p d
        → IsWantedAt s.now k wants.new.items p d }
{
    let symbol = s.symbol();
    let number = cell_number(symbol, pair, chamber) as usize;
    wants[number] = k / symbol.branching(pair, chamber) % k;
}

/// What is wanting at each cell while no side has a shift.
pub(crate) fn first_wants(alloc: Global, s: &Connected, k: u32) -> Result<Vec<u32>, Memory>
    requires { 1 ≤ k }
    ensures { IfOk result (λ wants. AreWanted s.now k wants.items) }
{
    let symbol = s.symbol();
    let mut wants = vec![in alloc; 0u32; 3 * (symbol.size() as usize + 1)]?;
    for j in 0..symbol.size() {
        want(&mut wants, s, k, Pair::Tile, j + 1);
        want(&mut wants, s, k, Pair::Vertex, j + 1);
        want(&mut wants, s, k, Pair::Edge, j + 1);
    }
    Ok(wants)
}
