ghost use Rattle.std.specs.Prelude.{◌≡◌, ◌++◌, IfOk, OnOk};
ghost use Rattle.dd_name.specs.Cones.{AreCones, cone_values};

use crate::orders::Orders;
use dd_cells::{Cell, cells};
use dd_model::{Memory, Pair};
use dd_symbol::{Connected, Kind};
use std::alloc::Global;

/// Appends the values of the cones among some cells.
fn push_cones(cones: &mut Vec<u32>, cells: &[Cell]) -> Result<(), Memory>
    ensures { OnOk result (cones.new.items ≡ cones.old.items ++ cone_values cells.now) }
{
    for cell in cells {
        match cell.kind {
            Kind::Cycle if cell.v > 1 => cones.push(cell.v)?,
            _ => {}
        }
    }
    Ok(())
}

/// The cones of a symbol.
pub(crate) fn cones(alloc: Global, s: &Connected) -> Result<Orders, Memory>
    ensures { IfOk result (λ cones. AreCones s.now cones) }
{
    let mut cones = Vec::new(alloc);
    push_cones(&mut cones, &cells(alloc, s, Pair::Tile)?)?;
    push_cones(&mut cones, &cells(alloc, s, Pair::Vertex)?)?;
    push_cones(&mut cones, &cells(alloc, s, Pair::Edge)?)?;
    cones.sort_unstable_by(|a, b| b.cmp(a));
    Ok(Orders::from_vec(cones))
}
