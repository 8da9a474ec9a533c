ghost use Rattle.std.specs.Prelude.{◌≡◌, ◌≢◌, ◌≤◌, ◌↔◌, ℕ, IfOk, IsTrue};
ghost use Rattle.std.specs.Bool.{OnTrue, OnFalse};
ghost use Rattle.dd_model.specs.Symbol.{IsChamber, op};
ghost use Rattle.dd_model.specs.Connected.{Connected as AllReached};
ghost use Rattle.dd_model.specs.Isomorphic.{IsMorphism, IsIsomorphism};
ghost use Rattle.dd_model.specs.declared.index.Index.{Index};
ghost use Rattle.dd_cells.specs.Orientation.{IsOriented};
ghost use Rattle.dd_covers.specs.Covers.{IsOrientedBy};
ghost use Rattle.dd_covers.specs.OrientedCover.{IsOrientedCover};
ghost use Rattle.dd_covers.specs.Mirrors.{HasFixedChamber};
ghost use Rattle.dd_covers.specs.Shifts.{AreOnes};

use crate::cover::Cover;
use crate::sheets::{below, cover};
use crate::shifts::Shifts;
use dd_cells::{Orientation, orientation};
use dd_model::Memory;
use dd_symbol::{Connected, Symbol};
use std::alloc::Global;

/// Returns whether a symbol is oriented. It takes the memory of one coloring, and none if some
/// involution fixes a chamber.
pub fn is_oriented(alloc: Global, s: &Connected) -> Result<bool, Memory>
    ensures { IfOk result (λ yes. IsTrue yes ↔ IsOriented s.now) }
{
    if has_mirror(s.symbol()) {
        return Ok(false);
    }
    match orientation(alloc, s)? {
        Orientation::Oriented => Ok(true),
        Orientation::Weak | Orientation::None => Ok(false),
    }
}

/// Returns whether some involution fixes a chamber.
fn has_mirror(symbol: &Symbol) -> bool
    ensures yes { OnTrue result (HasFixedChamber symbol.now) }
    ensures no { OnFalse result ((i : Index) (d : ℕ) → IsChamber symbol.now d
        → op symbol.now i d ≢ d) }
{
    for k in 0..symbol.size() {
        let images = symbol.images(k + 1);
        if images.contains(&(k + 1)) {
            return true;
        }
    }
    false
}

/// Shifts of one sheet everywhere.
fn ones(alloc: Global, symbol: &Symbol) -> Result<Shifts, Memory>
    ensures { IfOk result (λ shifts. AreOnes symbol.now shifts) }
{
    let size = symbol.size() as usize;
    Ok(Shifts {
        x0: vec![in alloc; 1u32; size]?,
        x1: vec![in alloc; 1u32; size]?,
        x2: vec![in alloc; 1u32; size]?,
    })
}

/// The cover of an oriented symbol by itself.
fn itself(alloc: Global, s: &Connected) -> Result<Cover, Memory>
    requires { IsOriented s.now }
    ensures { IfOk result (IsOrientedBy s.now) }
{
    let symbol = s.symbol();
    let chambers = below(alloc, symbol, 1)?;
    let turn = below(alloc, symbol, 1)?;
    Ok(Cover {
        symbol: s.try_copy(alloc)?,
        below: chambers,
        turn,
    })
}

/// Returns the oriented cover of a symbol of at most 8,192 chambers. This is the symbol itself if
/// it is oriented, and its two sheets otherwise. It fails only if an allocation fails. After Dress
/// and Huson.
pub fn oriented(alloc: Global, s: &Connected) -> Result<Cover, Memory>
    requires { s.now.size ≤ 8192 }
    ensures cover { IfOk result (λ cover. IsOrientedCover s.now cover.symbol cover.below) }
    ensures morphism { IfOk result (λ cover. IsMorphism cover.symbol s.now cover.below) }
    ensures turn { IfOk result (λ cover. IsIsomorphism cover.symbol cover.symbol cover.turn) }
    ensures oriented { IfOk result (λ cover. IsOriented cover.symbol) }
    ensures connected { IfOk result (λ cover. AllReached cover.symbol) }
{
    if is_oriented(alloc, s)? {
        return Ok(itself(alloc, s)?);
    }
    let ones = ones(alloc, s.symbol())?;
    Ok(cover(alloc, s, 2, &ones)?)
}
