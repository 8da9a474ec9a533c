ghost use Rattle.std.specs.Prelude.{◌≡◌, ℕ, ◌+◌, ◌*◌, ◌<◌, length, IfOk, IfSome, MatchOption};
ghost use Rattle.std.specs.BinaryHeap.{heap_items};
ghost use Rattle.std.specs.List.{Contains};
ghost use Rattle.dd_covers.specs.Visiting.{AreVisitNumbers};
ghost use Rattle.dd_covers.specs.SideLists.{AreAscending, AreFreeSides};
ghost use Rattle.dd_covers.specs.Joins.{new_end as new_end_of, IsEven, IsNext, AreWholeJoins};
ghost use Rattle.dd_covers.specs.Waiting.{AreAtCells, AreWaiting, IsNoSide, places};
ghost use Rattle.dd_covers.specs.declared.side.Side.{Side};

use crate::join::Join;
use crate::side::Side;
use dd_model::Memory;
use dd_symbol::{Connected, Symbol};
use std::alloc::Global;
use std::collections::BinaryHeap;

/// The number of the new cell.
pub(crate) fn new_end(join: &Join) -> u32
    ensures { result ≡ new_end_of join.now }
{
    if join.out {
        join.side.from
    } else {
        join.side.to
    }
}

/// Returns for each cell the sides that have an end at it. A side is given by the number of sides
/// that come after it, so that a heap gives the first side first.
fn sides_at_cells(alloc: Global, sides: &[Side], cells: usize) -> Result<Vec<Vec<usize>>, Memory>
    requires { (x : Side) → Contains sides.now x → (x.from < cells) × (x.to < cells) }
    ensures many { IfOk result (λ at. length at.items ≡ cells) }
    ensures sides { IfOk result (λ at. AreAtCells sides.now (length sides.now) (places at.items)) }
{
    let mut at = Vec::new(alloc);
    for _ in 0..cells {
        at.push(Vec::new(alloc))?;
    }
    for k in 0..sides.len() {
        let side = sides[k];
        let after = sides.len() - 1 - k;
        at[side.from as usize].push(after)?;
        at[side.to as usize].push(after)?;
    }
    Ok(at)
}

/// The first of the waiting sides at which one cell is reached and the other is not.
fn next_join(waiting: &mut BinaryHeap<usize>, sides: &[Side], reached: &[bool]) -> Option<Join>
    requires ends { (x : Side) → Contains sides.now x
        → (x.from < length reached.now) × (x.to < length reached.now) }
    requires ascending { AreAscending sides.now }
    requires waiting { AreWaiting sides.now reached.now (heap_items waiting.old) IsNoSide }
    ensures next { MatchOption result
        ((x : Side) → Contains sides.now x → IsEven reached.now x)
        (λ join. IsNext sides.now reached.now join) }
    ensures waiting { IfSome result (λ join.
        AreWaiting sides.now reached.now (heap_items waiting.new) (λ x. x ≡ join.side)) }
{
    while let Some(after) = waiting.pop() {
        let side = sides[sides.len() - 1 - after];
        let out = reached[side.to as usize];
        if reached[side.from as usize] != out {
            return Some(Join { side, out });
        }
    }
    None
}

/// Returns the sides that join all cells to the tile of chamber 1, in order. Each is the first free
/// side that leads from a cell that is reached to one that is not.
pub(crate) fn joins(
    alloc: Global,
    s: &Connected,
    numbers: &[u32],
    sides: &[Side],
) -> Result<Vec<Join>, Memory>
    requires numbers { AreVisitNumbers s.now numbers.now }
    requires sides { AreFreeSides s.now numbers.now sides.now }
    ensures { IfOk result (λ joins. AreWholeJoins s.now numbers.now joins.items) }
{
    let cells = 3 * (s.symbol().size() as usize + 1);
    let at = sides_at_cells(alloc, sides, cells)?;
    let mut reached = vec![in alloc; false; cells]?;
    let mut waiting = BinaryHeap::new(alloc);
    let mut joins = Vec::new(alloc);
    reached[1] = true;
    waiting.extend(at[1].as_slice())?;
    while let Some(join) = next_join(&mut waiting, sides, reached.as_slice()) {
        let cell = new_end(&join) as usize;
        reached[cell] = true;
        waiting.extend(at[cell].as_slice())?;
        joins.push(join)?;
    }
    Ok(joins)
}
