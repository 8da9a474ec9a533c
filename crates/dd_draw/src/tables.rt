ghost use Rattle.std.specs.Prelude.{◌≡◌, ◌<◌, ◌+◌, ℕ, suc, length, IfOk, IfErr};
ghost use Rattle.dd_draw.specs.Tables.{lists, IsTable, IsPlaceFault};

use crate::bounded_fraction::BoundedFraction;
use crate::first_table::first_row;
use crate::place_fault::PlaceFault;
use crate::rows::{divided, remaining};
use crate::small_net::SmallNet;
use std::alloc::Global;

/// Returns the first table: a row for each vertex but the first.
fn first_table(alloc: Global, small: &SmallNet) -> Result<Vec<Vec<BoundedFraction>>, PlaceFault>
    ensures table { IfOk result (λ rows. IsTable small.now.net.now 0 (lists rows.items)) }
    ensures fault { IfErr result (λ why. IsPlaceFault small.now.net.now why) }
{
    let mut rows = Vec::new(alloc);
    for place in 0..small.net.vertices - 1 {
        rows.push(first_row(alloc, small, place + 1)?)?;
    }
    Ok(rows)
}

/// Does one step of the elimination. The row at a place is divided by its pivot. Then a multiple of
/// it is taken away from each other row, which leaves 0 in the column of the pivot.
fn eliminate(
    alloc: Global,
    small: &SmallNet,
    rows: &mut Vec<Vec<BoundedFraction>>,
    place: usize,
) -> Result<(), PlaceFault>
    requires place { suc place < small.now.net.now.vertices }
    requires table { IsTable small.now.net.now place (lists rows.old.items) }
    ensures table { IfOk result (λ done.
        IsTable small.now.net.now (suc place) (lists rows.new.items)) }
    ensures fault { IfErr result (λ why. IsPlaceFault small.now.net.now why) }
{
    let step = place as u32 + 1;
    let pivot_row = rows[place].as_slice();
    let top = divided(alloc, pivot_row, pivot_row[place], step)?;
    rows[place] = top;
    for other in 0..small.net.vertices as usize - 1 {
        if other != place {
            let top = rows[place].as_slice();
            let row = rows[other].as_slice();
            let rest = remaining(alloc, row, row[place], top, step, other as u32 + 1)?;
            rows[other] = rest;
        }
    }
    Ok(())
}

/// Returns the last table.
pub(crate) fn last_table(
    alloc: Global,
    small: &SmallNet,
) -> Result<Vec<Vec<BoundedFraction>>, PlaceFault>
    ensures table { IfOk result (λ rows. (k : ℕ) → suc k ≡ small.now.net.now.vertices
        → IsTable small.now.net.now k (lists rows.items)) }
    ensures fault { IfErr result (λ why. IsPlaceFault small.now.net.now why) }
{
    let mut rows = first_table(alloc, small)?;
    for place in 0..small.net.vertices as usize - 1 {
        eliminate(alloc, small, &mut rows, place)?;
    }
    Ok(rows)
}
