//! What the images of a table decide if all of them are known.

ghost use Rattle.std.specs.Prelude.{◌≡◌, ◌*◌, IfOk, MatchOption, length};
ghost use Rattle.std.specs.Bool.{OnTrue, OnFalse};
ghost use Rattle.dd_symbol.specs.Images.{of_rows};
ghost use Rattle.dd_front_jobs.specs.Under.{HasNothingUnder};
ghost use Rattle.dd_branch_tables.specs.Stem.{Any, IsStem, prefix_of, size_of};
ghost use Rattle.dd_branch_tables.specs.Table.{AreOfTable, HasLeastTable, HasTable};
ghost use Rattle.dd_branch_tables.specs.Ties.{AreTiesOf};

use crate::stem::Stem;
use crate::traversal::{FirstVisits, Standing, stand};
use dd_model::Memory;
use dd_symbol::Involutions;
use std::alloc::Global;

/// Returns whether the images, which are all known, are those of a least table. The chambers come
/// in the order of their first visits, all of them are met, and the traversal from no start reads
/// smaller.
pub fn is_least(stem: &Stem, visit: &mut FirstVisits) -> bool
    requires stem { IsStem stem.now }
    requires whole { length (prefix_of stem.now) ≡ 3 * size_of stem.now }
    ensures least { OnTrue result (HasLeastTable (size_of stem.now) (prefix_of stem.now)) }
    ensures none { OnFalse result (HasNothingUnder Any (size_of stem.now) (prefix_of stem.now)) }
{
    if !stem.grows() || !stem.meets_all() {
        return false;
    }
    for k in 1..stem.size() {
        let standing = stand(stem.rows(), stem.prefix(), k + 1, visit);
        if let Standing::Smaller = standing {
            return false;
        }
    }
    true
}

/// Returns the chambers other than 1 from which the numbering of the whole table may have the same
/// code. Returns None in three cases: the numbering from some chamber has a smaller code, the
/// chambers don't come in the order of their first visits, or not all of them are connected.
pub fn ties(stem: &Stem, alloc: Global) -> Result<Option<Vec<u32>>, Memory>
    requires stem { IsStem stem.now }
    requires whole { length (prefix_of stem.now) ≡ 3 * size_of stem.now }
    ensures { IfOk result (λ found. MatchOption found
        (HasNothingUnder Any (size_of stem.now) (prefix_of stem.now))
        (λ ties. AreTiesOf (size_of stem.now) (prefix_of stem.now) ties.items)) }
{
    if !stem.grows() || !stem.meets_all() {
        return Ok(None);
    }
    let mut ties = Vec::new(alloc);
    let mut visit = FirstVisits::new();
    for k in 1..stem.size() {
        match stand(stem.rows(), stem.prefix(), k + 1, &mut visit) {
            Standing::Smaller => return Ok(None),
            Standing::Larger => {}
            Standing::Open(_) => ties.push(k as u32 + 1)?,
        }
    }
    Ok(Some(ties))
}

/// The involutions of all images, which are known to be those of a table. Nothing is tested.
pub fn involutions(stem: &Stem, alloc: Global) -> Result<Involutions, Memory>
    requires stem { IsStem stem.now }
    requires whole { length (prefix_of stem.now) ≡ 3 * size_of stem.now }
    requires some { HasTable (size_of stem.now) (prefix_of stem.now) }
    ensures same { IfOk result (λ it. it ≡ of_rows (size_of stem.now) (prefix_of stem.now)) }
    ensures table { IfOk result (λ it. AreOfTable it) }
{
    let size = u32::from(stem.size());
    Involutions::from_known_bytes(alloc, stem.prefix(), size)
}
