ghost use Rattle.std.specs.Prelude.{◌≤◌, ℕ, List, IfOk, IfErr};
ghost use Rattle.dd_model.specs.Symbol.{Symbol};
ghost use Rattle.dd_model.specs.Flat.{Flat};
ghost use Rattle.dd_model.specs.Isomorphic.{IsMorphism};
ghost use Rattle.dd_covers.specs.Torus.{IsTorus};
ghost use Rattle.dd_covers.specs.TorusCover.{IsTorusCover};
ghost use Rattle.dd_crystal.specs.Faults.{IsSheetsFault};
ghost use Rattle.dd_crystal.specs.SheetCounts.{HasSheets, IsTorusSheets};

use crate::sheets_faults::SheetsFault;
use dd_cells::{curvature, is_flat};
use dd_covers::{greatest_value, is_oriented};
use dd_model::Memory;
use dd_symbol::Connected;
use std::alloc::Global;

/// The greatest branching value, times 2 unless the symbol is oriented.
fn torus_sheets(alloc: Global, s: &Connected) -> Result<u32, Memory>
    ensures { IfOk result (λ number. IsTorusSheets s.now number) }
{
    let _symbol = s.symbol();
    let greatest = greatest_value(s);
    if is_oriented(alloc, s)? {
        return Ok(greatest);
    }
    Ok(2 * greatest)
}

/// Returns the number of sheets of the torus cover of a flat symbol, without making the cover. It
/// is the greatest branching value of the tiles, vertices and edges, times 2 unless the symbol is
/// oriented. No torus covers the symbol with fewer sheets.
///
/// It takes the memory of one coloring. It fails with `NotFlat` exactly if the curvature is not 0,
/// and with `Memory` only if an allocation fails.
pub fn sheets(alloc: Global, s: &Connected) -> Result<u32, SheetsFault>
    ensures number { IfOk result (λ n. IsTorusSheets s.now n) }
    ensures cover { IfOk result (λ n. (t : Symbol) (below : List ℕ)
        → IsTorusCover s.now t below → HasSheets s.now t below n) }
    ensures fewest { IfOk result (λ n. (t : Symbol) (below : List ℕ) (m : ℕ) → IsTorus t
        → IsMorphism t s.now below → HasSheets s.now t below m → n ≤ m) }
    ensures flat { IfOk result (λ _. Flat s.now) }
    ensures why { IfErr result (λ fault. IsSheetsFault s.now fault) }
{
    let _symbol = s.symbol();
    if !is_flat(s) {
        return Err(SheetsFault::NotFlat {
            curvature: curvature(s),
        });
    }
    Ok(torus_sheets(alloc, s)?)
}
