ghost use Rattle.std.specs.Prelude.{IfOk};
ghost use Rattle.dd_model.specs.Isomorphic.{IsIsomorphism};
ghost use Rattle.dd_covers.specs.Torus.{IsTorus};
ghost use Rattle.dd_lattice.specs.NetOf.{IsNet};
ghost use Rattle.dd_gram.specs.Action.{IsAction};

use crate::basis::Basis;
use crate::forms::Matrix;
use dd_lattice::Net;
use dd_model::{Map, Memory};
use dd_symbol::Connected;
use std::alloc::Global;

/// Returns the one matrix by which a symmetry of a torus acts on the shifts of closed walks.
pub fn matrix(alloc: Global, t: &Connected, net: &Net, map: &Map) -> Result<Matrix, Memory>
    requires torus { IsTorus t.now }
    requires net { IsNet t.now net.now }
    requires map { IsIsomorphism t.now t.now map.now }
    ensures { IfOk result (λ m. IsAction t.now map.now m) }
{
    let basis = Basis::new(alloc, t, net)?;
    Ok(basis.matrix(map))
}
