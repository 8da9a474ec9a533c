/// How the chambers of a symbol have two sides.
#[derive(Debug, Clone, Copy, PartialEq, Eq)]
pub enum Orientation {
    /// No involution fixes a chamber, and each exchanges two colors of the chambers.
    Oriented,
    /// Some involution fixes a chamber, and each exchanges two colors on the chambers that it
    /// moves.
    Weak,
    /// There are no such colors.
    None,
}
