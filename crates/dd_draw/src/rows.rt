ghost use Rattle.std.specs.Prelude.{◌≡◌, ◌≢◌, ◌⊎◌, ◌≤◌, pos, length, IfOk, IfErr};
ghost use Rattle.dd_draw.specs.Limit.{IsWide};
ghost use Rattle.dd_draw.specs.Rows.{AreMade, IsRowFault, quotients, products, remainders};

use crate::bounded_fraction::BoundedFraction;
use crate::fractions::{less_product, over};
use crate::place_fault::PlaceFault;
use std::alloc::Global;

/// Returns the row of a step, divided by its pivot.
pub(crate) fn divided(
    alloc: Global,
    row: &[BoundedFraction],
    pivot: BoundedFraction,
    step: u32,
) -> Result<Vec<BoundedFraction>, PlaceFault>
    requires few { length row.now ≤ 97 }
    requires nonzero { pivot.num ≢ pos 0 }
    ensures made { IfOk result (λ new. AreMade (quotients row.now pivot)
        (λ j. IsWide (quotients row.now pivot j)) (length row.now) new.items) }
    ensures fault { IfErr result (λ why. IsRowFault step step (length row.now)
        (λ j. IsWide (quotients row.now pivot j)) why) }
{
    let mut new = Vec::new(alloc);
    for place in 0..row.len() {
        let Some(number) = over(row[place], pivot) else {
            let column = place as u32 + 1;
            return Err(PlaceFault::TooWide {
                step,
                row: step,
                column,
            });
        };
        new.push(number)?;
    }
    Ok(new)
}

/// Returns another row, less its factor times the row of the step.
pub(crate) fn remaining(
    alloc: Global,
    row: &[BoundedFraction],
    factor: BoundedFraction,
    top: &[BoundedFraction],
    step: u32,
    row_number: u32,
) -> Result<Vec<BoundedFraction>, PlaceFault>
    requires few { length row.now ≤ 97 }
    requires as_long { length top.now ≡ length row.now }
    ensures made { IfOk result (λ new. AreMade (remainders row.now factor top.now)
        (λ j. IsWide (remainders row.now factor top.now j) ⊎ IsWide (products factor top.now j))
        (length row.now) new.items) }
    ensures fault { IfErr result (λ why. IsRowFault step row_number (length row.now)
        (λ j. IsWide (remainders row.now factor top.now j) ⊎ IsWide (products factor top.now j))
        why) }
{
    let mut new = Vec::new(alloc);
    for place in 0..row.len() {
        let Some(number) = less_product(row[place], factor, top[place]) else {
            let column = place as u32 + 1;
            return Err(PlaceFault::TooWide {
                step,
                row: row_number,
                column,
            });
        };
        new.push(number)?;
    }
    Ok(new)
}
