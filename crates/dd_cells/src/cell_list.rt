ghost use Rattle.std.specs.Prelude.{◌≡◌, IfOk};
ghost use Rattle.dd_model.specs.Symbol.{IsChamber};
ghost use Rattle.dd_model.specs.Cell.{IsLeastTurns, IsLeastOfCell};
ghost use Rattle.dd_cells.specs.Cells.{AreMembers, IsCellOf, AreCellsOf};

use crate::cell::Cell;
use crate::cell_chambers::CellChambers;
use dd_model::{Memory, Pair};
use dd_symbol::{CellShape, Connected};
use std::alloc::Global;

/// The chambers of the cell of a chamber, which are met within r turns.
fn walked(
    alloc: Global,
    s: &Connected,
    pair: Pair,
    chamber: u32,
    r: u32,
) -> Result<CellChambers, Memory>
    requires chamber { IsChamber s.now chamber }
    requires turns { IsLeastTurns s.now pair chamber r }
    ensures { IfOk result (λ members. AreMembers s.now pair chamber members) }
{
    let symbol = s.symbol();
    let mut chambers = Vec::new(alloc);
    let mut place = chamber;
    for _turn in 0..r {
        let neighbor = symbol.op(pair.first(), place);
        chambers.push(place)?;
        chambers.push(neighbor)?;
        place = symbol.op(pair.second(), neighbor);
    }
    chambers.sort_unstable();
    chambers.dedup();
    Ok(CellChambers::from_vec(chambers))
}

/// The cell of its least chamber.
fn cell_at(alloc: Global, s: &Connected, pair: Pair, least: u32) -> Result<Cell, Memory>
    requires { IsLeastOfCell s.now pair least }
    ensures cell { IfOk result (λ cell. IsCellOf s.now pair cell) }
    ensures least { IfOk result (λ cell. cell.least ≡ least) }
{
    let symbol = s.symbol();
    let CellShape { kind, r, .. } = symbol.cell(pair, least);
    Ok(Cell {
        least,
        kind,
        r,
        v: symbol.branching(pair, least),
        members: walked(alloc, s, pair, least, r)?,
    })
}

/// The cells of a pair, ascending by their least chambers.
pub fn cells(alloc: Global, s: &Connected, pair: Pair) -> Result<Vec<Cell>, Memory>
    ensures { IfOk result (λ cells. AreCellsOf s.now pair cells.items) }
{
    let chambers = s.symbol().least_chambers(alloc, pair)?;
    let mut cells = Vec::with_capacity(alloc, chambers.len())?;
    for k in 0..chambers.len() {
        cells.push(cell_at(alloc, s, pair, chambers[k])?)?;
    }
    Ok(cells)
}
