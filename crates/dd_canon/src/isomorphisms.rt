ghost use Rattle.std.specs.Prelude.{◌≡◌, ℕ, ◌<◌, ◌≤◌, List, length, map, IfOk, MatchOption};
ghost use Rattle.dd_model.specs.Symbol.{item};
ghost use Rattle.dd_model.specs.Isomorphic.{IsIsomorphism, Isomorphic};

use crate::best_numbering::best_numbering;
use crate::steps::Uncounted;
use dd_model::{Map, Memory};
use dd_symbol::{Connected, cmp_code};
use std::alloc::Global;

/// First one map, then another.
pub(crate) fn joined(alloc: Global, first: &[u32], then: &[u32]) -> Result<Map, Memory>
    requires within { (d : ℕ) → 1 ≤ d → d ≤ length first.now
        → (1 ≤ item first.now d) × (item first.now d ≤ length then.now) }
    ensures { IfOk result (λ whole. whole ≡ map (item then.now) first.now) }
{
    let mut images = Vec::with_capacity(alloc, first.len())?;
    for chamber in first {
        images.push(then[*chamber as usize - 1])?;
    }
    Ok(Map::from_vec(images))
}

/// A map to an isomorphic symbol, if the symbols are isomorphic.
pub fn isomorphic(alloc: Global, a: &Connected, b: &Connected) -> Result<Option<Map>, Memory>
    ensures { IfOk result (λ found.
        MatchOption found (¬ Isomorphic a.now b.now) (λ whole. IsIsomorphism a.now b.now whole)) }
{
    if a.symbol().size() != b.symbol().size() {
        return Ok(None);
    }
    let one = best_numbering(alloc, a, &mut Uncounted)?;
    let other = best_numbering(alloc, b, &mut Uncounted)?;
    let order = cmp_code(one.form.symbol(), other.form.symbol());
    if order.is_ne() {
        return Ok(None);
    }
    Ok(Some(joined(alloc, &one.home.number, &other.home.order)?))
}
