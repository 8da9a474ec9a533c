ghost use Rattle.std.specs.Prelude.{◌≡◌, ◌*◌, ◌≤◌, ℕ, List, length, map, IfOk, IfErr};
ghost use Rattle.dd_model.specs.Symbol.{item};
ghost use Rattle.dd_model.specs.Flat.{Flat};
ghost use Rattle.dd_model.specs.Isomorphic.{IsMorphism, IsIsomorphism};
ghost use Rattle.dd_covers.specs.PlaneValues.{IsGreatestValue};
ghost use Rattle.dd_covers.specs.Torus.{IsTorus};
ghost use Rattle.dd_covers.specs.TorusCover.{IsTorusCoverOf, IsTorusCover};
ghost use Rattle.dd_covers.specs.TorusFaults.{IsTorusFault};

use crate::cover::Cover;
use crate::oriented_cover::oriented;
use crate::sheets::cover;
use crate::torus_faults::TorusFault;
use crate::torus_shifts::{TorusBase, torus_shifts};
use crate::wanted_values::greatest_value;
use dd_cells::{curvature, is_flat};
use dd_model::{Map, Memory};
use dd_symbol::Connected;
use std::alloc::Global;

/// The torus cover of an oriented flat symbol, of as many sheets as the greatest branching value.
fn torus_over(alloc: Global, base: &TorusBase<'_>, k: u32) -> Result<Cover, Memory>
    requires { IsGreatestValue base.now k }
    ensures cover { IfOk result (λ cover. IsTorusCoverOf base.now k cover.symbol cover.below) }
    ensures turn { IfOk result (λ cover. IsIsomorphism cover.symbol cover.symbol cover.turn) }
{
    let s = base.symbol;
    let _symbol = s.symbol();
    let shifts = torus_shifts(alloc, base, k)?;
    Ok(cover(alloc, s, k, &shifts)?)
}

/// First one map, then another.
fn composed(alloc: Global, first: &Map, then: &Map) -> Result<Map, Memory>
    requires within { (d : ℕ) → 1 ≤ d → d ≤ length first.now
        → (1 ≤ item first.now d) × (item first.now d ≤ length then.now) }
    ensures { IfOk result (λ whole. whole ≡ map (item then.now) first.now) }
{
    let mut images = Vec::new(alloc);
    for chamber in first.as_slice() {
        images.push(then.image(*chamber))?;
    }
    Ok(Map::from_vec(images))
}

/// The torus cover of a flat symbol.
fn flat_torus(alloc: Global, s: &Connected) -> Result<Cover, Memory>
    requires few { s.now.size ≤ 1024 }
    requires flat { Flat s.now }
    ensures cover { IfOk result (λ cover. IsTorusCover s.now cover.symbol cover.below) }
    ensures torus { IfOk result (λ cover. IsTorus cover.symbol) }
    ensures morphism { IfOk result (λ cover. IsMorphism cover.symbol s.now cover.below) }
    ensures turn { IfOk result (λ cover. IsIsomorphism cover.symbol cover.symbol cover.turn) }
{
    let _symbol = s.symbol();
    let middle = oriented(alloc, s)?;
    let base = TorusBase {
        symbol: &middle.symbol,
    };
    let k = greatest_value(&middle.symbol);
    let mut upper = torus_over(alloc, &base, k)?;
    upper.below = composed(alloc, &upper.below, &middle.below)?;
    Ok(upper)
}

/// The torus cover of a flat symbol of at most 1,024 chambers, which is that of its oriented cover.
/// It has as many sheets above the oriented cover as the greatest branching value there.
pub fn torus(alloc: Global, s: &Connected) -> Result<Cover, TorusFault>
    requires { s.now.size ≤ 1024 }
    ensures cover { IfOk result (λ cover. IsTorusCover s.now cover.symbol cover.below) }
    ensures torus { IfOk result (λ cover. IsTorus cover.symbol) }
    ensures morphism { IfOk result (λ cover. IsMorphism cover.symbol s.now cover.below) }
    ensures turn { IfOk result (λ cover. IsIsomorphism cover.symbol cover.symbol cover.turn) }
    ensures flat { IfOk result (λ _. Flat s.now) }
    ensures why { IfErr result (λ fault. IsTorusFault s.now fault) }
{
    if !is_flat(s) {
        return Err(TorusFault::NotFlat {
            curvature: curvature(s),
        });
    }
    Ok(flat_torus(alloc, s)?)
}
