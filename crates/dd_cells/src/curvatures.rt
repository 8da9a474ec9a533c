ghost use Rattle.std.specs.Prelude.{◌≡◌, ◌↔◌, ◌*◌, ◌≤◌, ℕ, IsTrue, List};
ghost use Rattle.dd_model.specs.Symbol.{IsChamber, IsTable};
ghost use Rattle.dd_model.specs.Code.{chambers};
ghost use Rattle.dd_model.specs.Flat.{Flat, all_degrees, reciprocals};
ghost use Rattle.dd_cells.specs.Cells.{AreMembers};
ghost use Rattle.dd_cells.specs.Curvature.{IsCurvature, IsReciprocalSum};
ghost use Rattle.dd_model.specs.Small.{most_chambers};

use crate::fractions::Fraction;
use dd_model::Pair;
use dd_symbol::{Connected, Kind};

/// The least common multiple of the numbers 1 to 30, so a multiple of every branching value.
pub const COMMON_MULTIPLE: u64 = 2_329_089_562_800;

/// The sum of 1/m over the chambers of a cell, in parts of `COMMON_MULTIPLE`: 2/v for a cycle, and
/// 1/v for a chain.
fn cell_share(s: &Connected, pair: Pair, chamber: u32) -> u64
    requires { IsChamber s.now chamber }
    ensures sum { (members : List ℕ) → AreMembers s.now pair chamber members
        → IsReciprocalSum s.now pair members COMMON_MULTIPLE result }
    ensures small { result ≤ 2 * COMMON_MULTIPLE }
{
    let symbol = s.symbol();
    let sides = match symbol.cell(pair, chamber).kind {
        Kind::Chain => 1,
        Kind::Cycle => 2,
    };
    sides * (COMMON_MULTIPLE / u64::from(symbol.branching(pair, chamber)))
}

/// The sum of 1/m over all chambers, in parts of `COMMON_MULTIPLE`.
fn reciprocal_sum(s: &Connected, pair: Pair) -> u64
    ensures sum { IsReciprocalSum s.now pair (chambers s.now) COMMON_MULTIPLE result }
    ensures small { result ≤ most_chambers * (2 * COMMON_MULTIPLE) }
    ensures table { IsTable s.now }
{
    let symbol = s.symbol();
    let mut sum = 0;
    for k in 0..symbol.size() {
        let chamber = k + 1;
        if symbol.is_least_of_cell(pair, chamber) {
            sum += cell_share(s, pair, chamber);
        }
    }
    sum
}

/// The sum of 2/m01 + 2/m12 over all chambers, in parts of `COMMON_MULTIPLE`.
fn gain(s: &Connected) -> u64
    ensures sum { result * all_degrees s.now ≡ COMMON_MULTIPLE * (2 * reciprocals s.now) }
    ensures small { result ≤ 65536 * (2 * COMMON_MULTIPLE) }
{
    2 * (reciprocal_sum(s, Pair::Tile) + reciprocal_sum(s, Pair::Vertex))
}

/// The curvature: the sum of 1/m01 + 1/m12 - 1/2 over all chambers. It takes no memory.
pub fn curvature(s: &Connected) -> Fraction
    ensures { IsCurvature s.now result }
{
    let loss = COMMON_MULTIPLE * u64::from(s.symbol().size());
    Fraction::of_difference(gain(s), loss, 2 * COMMON_MULTIPLE)
}

/// Returns whether the curvature is 0. It takes no memory.
pub fn is_flat(s: &Connected) -> bool
    ensures { IsTrue result ↔ Flat s.now }
{
    gain(s) == COMMON_MULTIPLE * u64::from(s.symbol().size())
}
