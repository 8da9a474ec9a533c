ghost use Rattle.std.specs.Prelude.{IfOk};
ghost use Rattle.dd_name.specs.Orbifold.{IsOrbifold};

use crate::boundaries::boundaries;
use crate::cones::cones;
use crate::orbifolds::Orbifold;
use crate::rounds::rounds;
use crate::surface::handles_and_crosscaps;
use dd_model::Memory;
use dd_symbol::Connected;
use std::alloc::Global;

/// The orbifold of a symbol.
pub fn orbifold(alloc: Global, s: &Connected) -> Result<Orbifold, Memory>
    ensures { IfOk result (λ orbifold. IsOrbifold s.now orbifold) }
{
    let cones = cones(alloc, s)?;
    let rounds = rounds(alloc, s)?;
    let boundaries = boundaries(alloc, &rounds)?;
    let (handles, crosscaps) = handles_and_crosscaps(alloc, s, rounds.len())?;
    Ok(Orbifold {
        handles,
        cones,
        boundaries,
        crosscaps,
    })
}
