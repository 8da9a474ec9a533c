ghost use Rattle.std.specs.Prelude.{IfOk};
ghost use Rattle.dd_name.specs.Surface.{IsRoom, AreHandlesAndCrosscaps};

use dd_cells::{Orientation, euler, orientation};
use dd_model::Memory;
use dd_symbol::Connected;
use std::alloc::Global;

/// 2, less the number of boundaries and the Euler number, and 0 where that is negative.
fn room(s: &Connected, boundaries: usize) -> u32
    ensures { IsRoom s.now boundaries result }
{
    let euler = euler(s);
    if euler > 2 {
        return 0;
    }
    ((2 - euler) as usize).saturating_sub(boundaries) as u32
}

/// Returns the numbers of handles and of crosscaps of a surface with `boundaries` boundaries.
pub(crate) fn handles_and_crosscaps(
    alloc: Global,
    s: &Connected,
    boundaries: usize,
) -> Result<(u32, u32), Memory>
    ensures { IfOk result (λ r. AreHandlesAndCrosscaps s.now boundaries r.0 r.1) }
{
    let room = room(s, boundaries);
    match orientation(alloc, s)? {
        Orientation::Oriented => Ok((room / 2, 0)),
        Orientation::Weak => Ok((room / 2, 0)),
        Orientation::None => Ok((0, room)),
    }
}
