/// The two kinds of cells: in a chain one of the two involutions fixes a chamber, in a cycle none
/// does.
#[derive(Debug, Clone, Copy, PartialEq, Eq)]
pub enum Kind {
    /// No involution fixes a chamber, and the cell closes up.
    Cycle,
    /// An involution fixes a chamber, and the cell has two ends.
    Chain,
}
