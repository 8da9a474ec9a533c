use crate::kind::Kind;

/// The shape of one cell of a pair.
#[derive(Debug, Clone, Copy, PartialEq, Eq)]
pub struct CellShape {
    /// The least of its chambers.
    pub least: u32,
    /// A cycle or a chain.
    pub kind: Kind,
    /// The least positive number of turns that fixes a chamber.
    pub r: u32,
}
