use crate::cell_chambers::CellChambers;
use dd_symbol::Kind;

/// A tile, a vertex or an edge of the tiling, up to symmetry.
#[derive(Drop)]
pub struct Cell {
    /// The least of its chambers.
    pub least: u32,
    /// A cycle or a chain.
    pub kind: Kind,
    /// The least positive number of turns that fixes a chamber.
    pub r: u32,
    /// The branching value: the degree divided by `r`.
    pub v: u32,
    /// All of its chambers.
    pub members: CellChambers,
}
