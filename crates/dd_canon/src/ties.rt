ghost use Rattle.std.specs.Prelude.{◌≡◌, ◌⊎◌, ◌↔◌, ℕ, ◌++◌, ◌∷◌, [], ◌<◌, IsTrue, IfOk, OnOk, MatchOption};
ghost use Rattle.std.specs.List.{Contains};
ghost use Rattle.std.specs.declared.cmp.Ordering.TheVariants.{Greater};
ghost use Rattle.dd_model.specs.Symbol.{IsChamber};
ghost use Rattle.dd_model.specs.Code.{Least};
ghost use Rattle.dd_canon.specs.Ties.{AreTies, IsLeastFrom};

use crate::steps::Uncounted;
use crate::visits::NumberedChambers;
use dd_model::Memory;
use dd_symbol::Connected;
use std::alloc::Global;
use std::cmp::Ordering;

/// A start from which the numbering is not larger is kept, but for chamber 1.
fn keep(ties: &mut Vec<u32>, order: Ordering, start: u32) -> Result<(), Memory>
    ensures { OnOk result ((ties.new.items ≡ ties.old.items ++ start ∷ [])
        ⊎ (((order ≡ Greater) ⊎ (start ≡ 1)) × (ties.new.items ≡ ties.old.items))) }
{
    if order.is_gt() || start == 1 {
        return Ok(());
    }
    ties.push(start)?;
    Ok(())
}

/// The chambers but 1 from which the numbering by first visits may have the same code; None where
/// the numbering from some chamber has a smaller one.
pub fn tied_starts(alloc: Global, s: &Connected) -> Result<Option<Vec<u32>>, Memory>
    ensures { IfOk result (λ found.
        MatchOption found (Least s.now → ⊥) (λ ties. AreTies s.now ties.items)) }
{
    let mut visit = NumberedChambers::new(alloc, s)?;
    let mut ties = Vec::new(alloc);
    for k in 0..s.symbol().size() {
        let order = visit.stand(s, k + 1, s, &mut Uncounted);
        if order.is_lt() {
            return Ok(None);
        }
        keep(&mut ties, order, k + 1)?;
    }
    Ok(Some(ties))
}

/// Returns whether no numbering by first visits from one of some starts has a smaller code. Where
/// there are no starts it takes no memory.
pub fn is_least_from_ties(alloc: Global, s: &Connected, starts: &[u32]) -> Result<bool, Memory>
    requires { (d : ℕ) → Contains starts.now d → IsChamber s.now d }
    ensures { IfOk result (λ least. IsTrue least ↔ IsLeastFrom s.now starts.now) }
{
    if starts.is_empty() {
        return Ok(true);
    }
    let mut visit = NumberedChambers::new(alloc, s)?;
    for k in 0..starts.len() {
        let order = visit.stand(s, starts[k], s, &mut Uncounted);
        if order.is_lt() {
            return Ok(false);
        }
    }
    Ok(true)
}
