ghost use Rattle.std.specs.Prelude.{◌≡◌, ◌≢◌, ◌≤◌, ◌<◌, ◌↔◌, IfOk, IsTrue, length};
ghost use Rattle.std.specs.Bool.{OnTrue, OnFalse};
ghost use Rattle.dd_model.specs.Symbol.{IsSymbol, Symbol as Tiling};
ghost use Rattle.dd_model.specs.Isomorphic.{IsIsomorphism};
ghost use Rattle.dd_model.specs.Code.{code_cmp, Least};
ghost use Rattle.std.specs.declared.cmp.Ordering.TheVariants.{Greater};
ghost use Rattle.dd_plain.specs.Choices.{choices, chamber_table};

use crate::choices::list_of;
use crate::trials::CHAMBERS;
use dd_model::Memory;
use dd_symbol::{Connected, cmp_code, is_bijection};
use std::alloc::Global;

/// Returns whether the list with this number renumbers a symbol to one with a smaller code.
fn is_beaten_by(alloc: Global, symbol: &Connected, number: u64) -> Result<bool, Memory>
    ensures beaten { IfOk result (λ beaten. OnTrue beaten (Least symbol.now → ⊥)) }
    ensures unbeaten { IfOk result (λ beaten. OnFalse beaten ((t : Tiling) → IsSymbol t
        → IsIsomorphism symbol.now t (choices chamber_table symbol.now.size number)
        → code_cmp symbol.now t ≢ Greater)) }
{
    let map = list_of(alloc, &CHAMBERS, symbol.symbol().size(), number)?;
    if !is_bijection(alloc, &map)? {
        return Ok(false);
    }
    let other = symbol.renumber(alloc, &map)?;
    Ok(cmp_code(symbol.symbol(), other.symbol()).is_gt())
}

/// Returns whether no renumbering has a smaller code, for a symbol of at most three chambers.
pub(crate) fn is_least(alloc: Global, symbol: &Connected) -> Result<bool, Memory>
    requires { symbol.now.size ≤ 3 }
    ensures { IfOk result (λ least. IsTrue least ↔ Least symbol.now) }
{
    // Each list of at most three chambers of three has a number below 27.
    for number in 0..27 {
        if is_beaten_by(alloc, symbol, number)? {
            return Ok(false);
        }
    }
    Ok(true)
}
