use dd_cells::Fraction;
use dd_model::Memory;

/// Why a symbol is given no torus cover.
#[derive(Debug, Clone, Copy, PartialEq, Eq)]
pub enum TorusFault {
    /// The curvature of the symbol is not 0.
    NotFlat { curvature: Fraction },
    /// There was no room.
    Memory,
}

impl From<Memory> for TorusFault {
    ghost use Rattle.dd_covers.specs.declared.torus_faults.TorusFault.TheVariants as fault;
    ghost use Rattle.std.specs.Prelude.{◌≡◌};

    ghost from_gives = { λ _ result. result ≡ fault.Memory };

    fn from(_: Memory) -> Self {
        TorusFault::Memory
    }
}
