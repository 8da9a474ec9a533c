ghost use Rattle.std.specs.Prelude.{◌≡◌, ◌<◌, ◌≤◌, ◌^◌, ℕ, List, IfOk, length};
ghost use Rattle.std.specs.List.{AllByRecursion, Contains};
ghost use Rattle.dd_plain.specs.Choices.{choices};

use dd_model::Memory;
use std::alloc::Global;

/// Each list of items of a table is one of its numbered lists.
pub fn each_list_has_a_number()
    ensures { (table xs : List ℕ) → AllByRecursion (Contains table) xs
        → (k : ℕ) × (k < length table ^ length xs) × (choices table (length xs) k ≡ xs) }
{}

/// Returns list number `number` of the lists of `count` items of a table. Write the number in the
/// base of the table's length, the last digit first: each digit is the place in the table of one
/// item.
pub(crate) fn list_of(
    alloc: Global,
    table: &[u32],
    count: u32,
    number: u64,
) -> Result<Vec<u32>, Memory>
    requires some { 1 ≤ length table.now }
    ensures length { IfOk result (λ list. length list.items ≡ count) }
    ensures items { IfOk result (λ list. list.items ≡ choices table.now count number) }
{
    let base = table.len() as u64;
    let mut list = Vec::new(alloc);
    let mut rest = number;
    for _ in 0..count {
        list.push(table[(rest % base) as usize])?;
        rest /= base;
    }
    Ok(list)
}
