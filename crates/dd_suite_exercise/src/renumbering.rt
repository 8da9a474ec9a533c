ghost use Rattle.std.specs.Prelude.{◌≡◌, ◌+◌, ◌-◌, ◌≤◌, length, IfOk};
ghost use Rattle.dd_model.specs.Code.{count_from};
ghost use Rattle.dd_suite_exercise.specs.Draws.{after_draws};
ghost use Rattle.dd_suite_exercise.specs.Renumbering.{exchanged, renumbering};
ghost use Rattle.dd_model.specs.Small.{most_chambers};

use crate::draws::Generator;
use dd_model::Memory;
use std::alloc::Global;

/// Returns new numbers for `size` chambers.
pub(crate) fn renumbering(
    alloc: Global,
    size: u32,
    generator: &mut Generator,
) -> Result<Vec<u32>, Memory>
    requires { (1 ≤ size) × (size ≤ most_chambers) }
    ensures list { IfOk result (λ list. list.items ≡ renumbering size generator.old) }
    ensures draws { IfOk result (λ _. generator.new ≡ after_draws (size - 1) generator.old) }
{
    let list = numbers(alloc, size)?;
    Ok(exchange(list, generator))
}

/// Returns the numbers from 1 to `size`.
fn numbers(alloc: Global, size: u32) -> Result<Vec<u32>, Memory>
    ensures { IfOk result (λ list. list.items ≡ count_from 1 size) }
{
    let mut list = Vec::with_capacity(alloc, size as usize)?;
    for k in 0..size {
        list.push(k + 1)?;
    }
    Ok(list)
}

/// Exchanges each item, from the last one down to the second, with one that a draw picks of those
/// up to it.
fn exchange(mut list: Vec<u32>, generator: &mut Generator) -> Vec<u32>
    requires { 1 ≤ length list.items }
    ensures list { result.items ≡ exchanged (length list.items - 1) generator.old list.items }
    ensures draws { generator.new ≡ after_draws (length list.items - 1) generator.old }
{
    let mut last = list.len() - 1;
    while last > 0 {
        let other = generator.below(last + 1);
        list.swap(last, other);
        last -= 1;
    }
    list
}
