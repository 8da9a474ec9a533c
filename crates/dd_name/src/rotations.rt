ghost use Rattle.std.specs.Prelude.{◌≡◌, ◌++◌, ℕ, List, IfOk};
ghost use Rattle.dd_name.specs.Arranged.{IsGreatestRotation, IsGreatestTurned};

use crate::orders::Orders;
use dd_model::Memory;
use std::alloc::Global;

/// The greatest rotation of a list, which is handed in twice over.
fn greatest_rotation(doubled: &[u32]) -> &[u32]
    ensures { (xs : List ℕ) → doubled.now ≡ xs ++ xs → IsGreatestRotation xs result.now }
{
    let length = doubled.len() / 2;
    let mut best = 0;
    for k in 1..length {
        let rotation = &doubled[k..k + length];
        if rotation.cmp(&doubled[best..best + length]).is_gt() {
            best = k;
        }
    }
    &doubled[best..best + length]
}

/// The greatest of all rotations of a list and of its reversal.
pub(crate) fn greatest_turned(alloc: Global, list: &[u32]) -> Result<Orders, Memory>
    ensures { IfOk result (λ turned. IsGreatestTurned list.now turned) }
{
    let mut doubled = Vec::from_slice(alloc, list)?;
    doubled.extend_from_slice(list)?;
    let mut mirrored = Vec::from_slice(alloc, &doubled)?;
    mirrored.reverse();
    let forward = greatest_rotation(&doubled);
    let backward = greatest_rotation(&mirrored);
    let greatest = if forward.cmp(backward).is_lt() {
        backward
    } else {
        forward
    };
    Ok(Orders::from_vec(Vec::from_slice(alloc, greatest)?))
}
