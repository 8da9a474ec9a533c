ghost use Rattle.std.specs.Prelude.{◌≡◌, IfOk};
ghost use Rattle.dd_name.specs.Rounds.{corners as corners_of};
ghost use Rattle.dd_name.specs.Boundaries.{AreWritten, AreBoundaries};

use crate::joints::Joint;
use crate::orders::{Boundaries, Orders};
use crate::rotations::greatest_turned;
use crate::rounds::Round;
use dd_model::Memory;
use std::alloc::Global;

/// The values above 1 round a boundary.
fn corners(alloc: Global, joints: &[Joint]) -> Result<Vec<u32>, Memory>
    ensures { IfOk result (λ corners. corners.items ≡ corners_of joints.now) }
{
    let mut corners = Vec::new(alloc);
    for joint in joints {
        if joint.value > 1 {
            corners.push(joint.value)?;
        }
    }
    Ok(corners)
}

/// The corners of each round, as they are written.
fn written(alloc: Global, rounds: &[Round]) -> Result<Vec<Orders>, Memory>
    ensures { IfOk result (λ lists. AreWritten rounds.now lists.items) }
{
    let mut lists = Vec::with_capacity(alloc, rounds.len())?;
    for round in rounds {
        let corners = corners(alloc, round.as_slice())?;
        lists.push(greatest_turned(alloc, &corners)?)?;
    }
    Ok(lists)
}

/// The written corners of the rounds, descending.
pub(crate) fn boundaries(alloc: Global, rounds: &[Round]) -> Result<Boundaries, Memory>
    ensures { IfOk result (λ boundaries. AreBoundaries rounds.now boundaries) }
{
    let mut lists = written(alloc, rounds)?;
    lists.sort_unstable_by(|a, b| b.as_slice().cmp(a.as_slice()));
    Ok(Boundaries::from_vec(lists))
}
