ghost use Rattle.std.specs.Prelude.{◌+◌, ◌*◌, ◌≤◌, ◌↔◌, IsTrue, IfOk};
ghost use Rattle.dd_model.specs.Code.{Least, IsLeastForm};
ghost use Rattle.dd_model.specs.Isomorphic.{IsIsomorphism};

use crate::best_numbering::{BestNumbering, best_numbering};
use crate::steps::{Steps, Uncounted};
use dd_model::Memory;
use dd_symbol::{Connected, cmp_code};
use std::alloc::Global;
use std::sync::ledger::Ledger;

/// Returns the least form of a symbol of n chambers, in at most 5 n n comparisons of code numbers.
/// A symbol whose traversals tie only along automorphisms takes some n log n of them.
pub fn least<L: Ledger>(
    alloc: Global,
    s: &Connected,
    steps: &mut Steps<L>,
) -> Result<Connected, Memory>
    ensures least { IfOk result (λ form. IsLeastForm s.now form) }
    ensures count { steps.new ≤ steps.old + 5 * s.now.size * s.now.size }
{
    let best = best_numbering(alloc, s, steps)?;
    Ok(best.form)
}

/// Returns the least form of a symbol, for a caller that counts no comparisons.
pub fn least_form(alloc: Global, s: &Connected) -> Result<Connected, Memory>
    ensures { IfOk result (λ form. IsLeastForm s.now form) }
{
    let best = best_numbering(alloc, s, &mut Uncounted)?;
    Ok(best.form)
}

/// Returns the least form of a symbol with a known automorphism, given as the image of each
/// chamber. Fewer traversals tie than in `least_form`.
pub fn least_form_with(
    alloc: Global,
    s: &Connected,
    automorphism: &[u32],
) -> Result<Connected, Memory>
    requires { IsIsomorphism s.now s.now automorphism.now }
    ensures { IfOk result (λ form. IsLeastForm s.now form) }
{
    let mut best = BestNumbering::new(alloc, s)?;
    best.join_by(s, automorphism);
    best.improve_to_end(alloc, s, &mut Uncounted)?;
    Ok(best.form)
}

/// Returns whether no renumbering has a smaller code.
pub fn is_least(alloc: Global, s: &Connected) -> Result<bool, Memory>
    ensures { IfOk result (λ least. IsTrue least ↔ Least s.now) }
{
    let mut best = BestNumbering::new(alloc, s)?;
    if cmp_code(best.form.symbol(), s.symbol()).is_ne() {
        return Ok(false);
    }
    for k in 1..s.symbol().size() {
        let better = best.improve(alloc, s, k + 1, &mut Uncounted)?;
        if better {
            return Ok(false);
        }
    }
    Ok(true)
}
