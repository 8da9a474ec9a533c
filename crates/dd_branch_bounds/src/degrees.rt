ghost use Rattle.std.specs.Prelude.{◌≡◌, ◌⊎◌, ℕ, ◌+◌, ◌-◌, ◌*◌, ◌/◌, ◌≤◌, ◌↔◌, IsTrue};
ghost use Rattle.dd_model.specs.Wanted.{IsCrystallographic};
ghost use Rattle.dd_branch_bounds.specs.Shares.{IsAllowed};
ghost use Rattle.dd_branch_bounds.specs.Units.{share_unit};

use dd_model::{Pair, Request};

/// A number that each of 1 to 36 divides. The shares of chambers are parts of it.
pub const SHARE_UNIT: u64 = 144_403_552_893_600;

/// Returns whether a request allows the degree to the cells of a pair.
fn allows(request: &Request, pair: Pair, degree: u32) -> bool
    ensures { IsTrue result ↔ IsAllowed request.now pair degree }
{
    match pair {
        Pair::Tile => request.faces.has(degree),
        Pair::Vertex => request.degrees.has(degree),
        Pair::Edge => degree == 2,
    }
}

/// The least degree from another number on that a request allows to the cells of a pair. It is 217
/// if the request allows none of these numbers.
pub fn least_degree(request: &Request, pair: Pair, from: u32) -> u32
    requires { from ≤ 36 }
    ensures from { from ≤ result }
    ensures least { (m : ℕ) → IsAllowed request.now pair m → from ≤ m → result ≤ m }
    ensures allowed { IsAllowed request.now pair result ⊎ (result ≡ 217) }
{
    for degree in from..217 {
        if allows(request, pair, degree) {
            return degree;
        }
    }
    217
}

/// SHARE_UNIT divided by the degree, rounded up.
pub fn share_of(degree: u32) -> u64
    requires { 1 ≤ degree }
    ensures share { result ≡ (share_unit - 1) / degree + 1 }
    ensures small { result ≤ share_unit }
{
    (SHARE_UNIT - 1) / u64::from(degree) + 1
}

/// Returns whether a cell of `turns` turns may have the branching value.
fn allows_cell(request: &Request, pair: Pair, branching: u32, turns: u8) -> bool
    requires branching { branching ≤ 6 }
    ensures { IsTrue result
        ↔ (IsCrystallographic branching × IsAllowed request.now pair (branching * turns)) }
{
    [1, 2, 3, 4, 6].contains(&branching) && allows(request, pair, branching * u32::from(turns))
}

/// Returns SHARE_UNIT divided by the least degree that a request allows to a cell of `turns` turns,
/// rounded up, or 0 if it allows none. The degree is the branching value times the turns.
pub fn share_of_cell(request: &Request, pair: Pair, turns: u8) -> u64
    requires { 1 ≤ turns }
    ensures share { (v : ℕ) → IsCrystallographic v → IsAllowed request.now pair (v * turns)
        → share_unit ≤ result * (v * turns) }
    ensures small { result ≤ share_unit }
{
    for branching in 1..7 {
        if allows_cell(request, pair, branching, turns) {
            return share_of(branching * u32::from(turns));
        }
    }
    0
}
