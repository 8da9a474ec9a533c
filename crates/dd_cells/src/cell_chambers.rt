ghost use Rattle.std.specs.Prelude.{◌≡◌, ℕ, List};

use std::marker::Model;

/// The chambers of a cell, ascending.
#[derive(Drop)]
pub struct CellChambers {
    chambers: Vec<u32>,
}

impl Model for CellChambers {
    ghost Value = { List ℕ };

    ghost view = { λ a. a.chambers.items };
}

impl CellChambers {
    /// The chambers in this order.
    pub(crate) fn from_vec(chambers: Vec<u32>) -> CellChambers
        ensures { result ≡ chambers.items }
    {
        CellChambers { chambers }
    }

    /// The chambers in order.
    pub fn as_slice(&self) -> &[u32]
        ensures { result.now ≡ self.now }
    {
        self.chambers.as_slice()
    }
}
