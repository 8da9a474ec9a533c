ghost use Rattle.std.specs.Prelude.{◌≡◌, ◌↔◌, ℕ, IsTrue, IfOk};
ghost use Rattle.dd_model.specs.Symbol.{IsChamber};
ghost use Rattle.dd_model.specs.Minimal.{Alike, Minimal};

use dd_model::{Index, Memory};
use dd_symbol::{Connected, Symbol};
use std::alloc::Global;

/// Returns whether the degrees of two chambers differ, or those of the vertices at the other ends
/// of their edges, or of the tiles beyond these.
fn are_told_apart(symbol: &Symbol, one: u32, other: u32) -> bool
    requires one { IsChamber symbol.now one }
    requires other { IsChamber symbol.now other }
    ensures { IsTrue result → Alike symbol.now one other → ⊥ }
{
    if symbol.m01(one) != symbol.m01(other) {
        return true;
    }
    if symbol.m12(one) != symbol.m12(other) {
        return true;
    }
    if symbol.m12(symbol.op(Index::Zero, one)) != symbol.m12(symbol.op(Index::Zero, other)) {
        return true;
    }
    if symbol.m01(symbol.op(Index::Two, one)) != symbol.m01(symbol.op(Index::Two, other)) {
        return true;
    }
    false
}

/// Returns whether a chamber differs from each other one.
fn is_like_no_other(symbol: &Symbol, chamber: u32) -> bool
    requires { IsChamber symbol.now chamber }
    ensures { IsTrue result → (e : ℕ) → IsChamber symbol.now e → Alike symbol.now chamber e
        → chamber ≡ e }
{
    for k in 0..symbol.size() {
        let other = k + 1;
        if other != chamber && !are_told_apart(symbol, chamber, other) {
            return false;
        }
    }
    true
}

/// Returns whether a chamber is seen to be like no other one. Then no two chambers are alike, since
/// a word that leads from one of two to that chamber leads from the other to it too.
fn has_one_like_no_other(s: &Connected) -> bool
    ensures { IsTrue result → Minimal s.now }
{
    let symbol = s.symbol();
    for k in 0..symbol.size() {
        if is_like_no_other(symbol, k + 1) {
            return true;
        }
    }
    false
}

/// Returns whether alike chambers are equal. Most symbols of a catalogue have a chamber like no
/// other one, and only the classes of the others are refined.
pub(crate) fn is_minimal(alloc: Global, s: &Connected) -> Result<bool, Memory>
    ensures { IfOk result (λ yes. IsTrue yes ↔ Minimal s.now) }
{
    if has_one_like_no_other(s) {
        return Ok(true);
    }
    dd_quotient::is_minimal(alloc, s)
}
