use dd_cells::Fraction;
use dd_model::Memory;

/// Why the sheets of a symbol are not counted.
#[derive(Debug, Clone, Copy, PartialEq, Eq)]
pub enum SheetsFault {
    /// The curvature of the symbol is not 0.
    NotFlat { curvature: Fraction },
    /// An allocation failed.
    Memory,
}

impl From<Memory> for SheetsFault {
    ghost use Rattle.dd_crystal.specs.declared.sheets_faults.SheetsFault.TheVariants as fault;
    ghost use Rattle.std.specs.Prelude.{◌≡◌};

    ghost from_gives = { λ _ result. result ≡ fault.Memory };

    fn from(_: Memory) -> Self {
        SheetsFault::Memory
    }
}
