/// The shape of the cell in which a tiling is drawn. Its first side is 1000 long.
#[derive(Debug, Clone, Copy, PartialEq, Eq)]
pub enum Frame {
    /// A square.
    Square,
    /// A rhombus of two triangles with equal sides, for tilings with three- and sixfold rotations.
    Hex,
    /// A cell whose second side goes `p` along the first side and `q` across it.
    Own {
        /// How far the second side goes along the first side.
        p: i64,
        /// How far it goes across.
        q: i64,
    },
}
