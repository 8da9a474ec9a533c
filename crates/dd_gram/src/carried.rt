ghost use Rattle.std.specs.Prelude.{◌≡◌, ℕ, List, IfOk, MatchOption};
ghost use Rattle.dd_model.specs.Symbol.{IsChamber};
ghost use Rattle.dd_canon.specs.Symmetries.{Carries};

use dd_canon::Symmetries;
use dd_model::{Map, Memory};
use dd_symbol::Connected;
use std::alloc::Global;

/// Returns the isomorphism of a symbol onto itself that takes chamber 1 to `to`, or None if there
/// is none.
pub fn carry(alloc: Global, t: &Connected, to: u32) -> Result<Option<Map>, Memory>
    requires { IsChamber t.now to }
    ensures { IfOk result (λ found. MatchOption found ((f : List ℕ) → ¬ Carries t.now to f)
        (λ map. Carries t.now to map)) }
{
    let mut symmetries = Symmetries::new(alloc, t)?;
    Ok(symmetries.carry(alloc, t, to)?)
}
