ghost use Rattle.std.specs.Prelude.{◌≡◌, ◌++◌, ◌+◌, ◌<◌, ◌≤◌, length, IfOk, OnOk};
ghost use Rattle.std.specs.List.{AllByRecursion};
ghost use Rattle.dd_suite_commands.specs.Facts.{head_text, tail_text};
ghost use Rattle.dd_suite_commands.specs.Info.{IsGroup, IsInfo};
ghost use Rattle.dd_suite_commands.specs.InfoSteps.{AddsInfoLine};
ghost use Rattle.dd_suite_commands.specs.Totals.{counted_in};

use crate::facts::Facts;
use crate::totals::Totals;
use dd_model::Memory;
use dd_name::{name, orbifold};
use dd_symbol::Connected;
use std::alloc::Global;

/// Returns a line of facts for each symbol, and how often each group comes.
pub(crate) fn info_of(alloc: Global, symbols: &[Connected]) -> Result<Vec<u8>, Memory>
    requires { length symbols.now ≤ 1000000 }
    ensures { IfOk result (λ text. IsInfo symbols.now text.items) }
{
    let mut text = Vec::new(alloc);
    let mut totals = Totals::new(alloc);
    for (before, symbol) in symbols.iter().enumerate() {
        put_info_line(&mut text, &mut totals, before + 1, symbol)?;
    }
    totals.put("total", &mut text)?;
    Ok(text)
}

/// The name of the group of a symbol.
pub fn group_of(alloc: Global, s: &Connected) -> Result<Vec<u8>, Memory>
    ensures { IfOk result (λ group. IsGroup s.now group.items) }
{
    let orbifold = orbifold(alloc, s)?;
    let mut group = Vec::new(alloc);
    name(&mut group, &orbifold)?;
    Ok(group)
}

/// Appends the line of number k, and counts the name of the group.
fn put_info_line(
    out: &mut Vec<u8>,
    totals: &mut Totals,
    k: usize,
    s: &Connected,
) -> Result<(), Memory>
    requires { AllByRecursion (λ e. e.1 < 1000000000) (counted_in totals.old) }
    ensures { OnOk result (AddsInfoLine k s.now (counted_in totals.old) (counted_in totals.new)
        out.old.items out.new.items) }
{
    let alloc = *out.allocator();
    let facts = Facts::of(alloc, s)?;
    let group = group_of(alloc, s)?;
    let head = facts.head(alloc, k)?;
    out.extend_from_slice(head.as_bytes())?;
    out.extend_from_slice(&group)?;
    out.extend_from_slice(facts.tail().as_bytes())?;
    totals.add(group)?;
    Ok(())
}
