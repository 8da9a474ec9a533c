ghost use Rattle.std.specs.Prelude.{◌≡◌, ◌<◌, ◌≤◌, ℕ, List, IfOk};
ghost use Rattle.dd_model.specs.Flat.{Flat};
ghost use Rattle.dd_covers.specs.TorusCover.{IsTorusCover};
ghost use Rattle.dd_suite_exercise.specs.Choices.{covering_at, IsCoverBy};

use dd_covers::{TorusFault, oriented, torus};
use dd_model::Memory;
use dd_symbol::Connected;
use std::alloc::Global;

/// By what a symbol is covered.
#[derive(Clone, Copy, Debug, PartialEq, Eq)]
pub(crate) enum Covering {
    /// The symbol itself.
    Nothing,
    /// Its oriented cover.
    Oriented,
    /// Its torus cover.
    Torus,
}

/// The covers in the order of the draws.
const COVERINGS: [Covering; 3] = [Covering::Nothing, Covering::Oriented, Covering::Torus];

impl Covering {
    /// The cover that a draw picks.
    pub fn picked_by(draw: usize) -> Covering
        requires { draw < 3 }
        ensures { result ≡ covering_at draw }
    {
        COVERINGS[draw]
    }

    /// The cover of a flat symbol.
    pub fn of(self, alloc: Global, s: &Connected) -> Result<Connected, Memory>
        requires few { s.now.size ≤ 1024 }
        requires flat { Flat s.now }
        ensures { IfOk result (λ cover. IsCoverBy self s.now cover) }
    {
        match self {
            Covering::Nothing => Ok(s.try_copy(alloc)?),
            Covering::Oriented => Ok(oriented(alloc, s)?.symbol),
            Covering::Torus => flat_torus(alloc, s),
        }
    }
}

/// The torus cover of a symbol that is known to be flat.
fn flat_torus(alloc: Global, s: &Connected) -> Result<Connected, Memory>
    requires few { s.now.size ≤ 1024 }
    requires flat { Flat s.now }
    ensures { IfOk result (λ cover. (below : List ℕ) × IsTorusCover s.now cover below) }
{
    match torus(alloc, s) {
        Ok(cover) => Ok(cover.symbol),
        Err(TorusFault::Memory) => Err(Memory),
        Err(TorusFault::NotFlat { curvature: _ }) => unreachable!(),
    }
}
