ghost use Rattle.std.specs.Prelude.{◌≡◌, ℕ, ◌<◌, ◌≤◌, length, map, slice_index, IfOk, IfErr};
ghost use Rattle.dd_model.specs.Symbol.{item};
ghost use Rattle.std.specs.List.Sorted.{IsStrictlyIncreasing};
ghost use Rattle.dd_text.specs.ToldImages.{numbers_of};
ghost use Rattle.dd_text.specs.Images.{IsWithin};

use crate::faults::{Fault, Why};
use dd_model::Numeral;
use dd_symbol::item;
use std::alloc::Global;

/// A list of `size` numbers that has the given ones at ascending chambers.
pub(crate) fn at_cells(
    alloc: Global,
    size: u32,
    cells: &[u32],
    numbers: &[Numeral],
) -> Result<Vec<u32>, Fault>
    requires counts { length numbers.now ≡ length cells.now }
    requires ascending { IsStrictlyIncreasing cells.now }
    requires chambers { (k : ℕ) → k < length cells.now → IsWithin size (slice_index cells.now k) }
    ensures length { IfOk result (λ told. length told.items ≡ size) }
    ensures told { IfOk result (λ told. map (item told.items) cells.now ≡ numbers_of numbers.now) }
    ensures why { IfErr result (λ fault. fault.why ≡ Why.Memory) }
{
    let mut told = vec![in alloc; 0u32; size as usize]?;
    for k in 0..cells.len() {
        told[cells[k] as usize - 1] = numbers[k].value;
    }
    Ok(told)
}

/// For each chamber the number that stands at the least one of its cell.
pub(crate) fn spread(alloc: Global, least: &[u32], told: &[u32]) -> Result<Vec<u32>, Fault>
    requires chambers { (k : ℕ) → k < length least.now
        → IsWithin (length told.now) (slice_index least.now k) }
    ensures ok { IfOk result (λ spread. spread.items ≡ map (item told.now) least.now) }
    ensures why { IfErr result (λ fault. fault.why ≡ Why.Memory) }
{
    let mut spread = Vec::with_capacity(alloc, least.len())?;
    for chamber in least {
        spread.push(item(told, *chamber))?;
    }
    Ok(spread)
}
