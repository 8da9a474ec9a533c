use dd_model::Index;

/// Where a part goes, and by which involution of the chamber.
#[derive(Debug, Clone, Copy, PartialEq, Eq)]
pub struct Move {
    /// The involution that is applied to the chamber; none where the chamber stays.
    pub by: Option<Index>,
    /// The part, counted from 0.
    pub to: usize,
}

/// A degree of a part.
#[derive(Debug, Clone, Copy, PartialEq, Eq)]
pub enum Degree {
    /// This multiple of m01 of the chamber.
    OfTile(u32),
    /// This multiple of m12 of the chamber.
    OfVertex(u32),
    /// The degree itself.
    Fixed(u32),
}

/// The degree of the chamber of which a degree is a multiple.
#[derive(Debug, Clone, Copy, PartialEq, Eq)]
pub enum MultipleOf {
    /// The degree m01.
    Tile,
    /// The degree m12.
    Vertex,
    /// Neither of the two.
    Neither,
}

/// A table of K parts: how each chamber of a symbol is replaced by K chambers.
#[derive(Debug, Clone, Copy)]
pub struct Template<const K: usize> {
    /// The moves of the parts by s0, by s1 and by s2.
    pub ops: [[Move; K]; 3],
    /// What m01 of each part is.
    pub face: [Degree; K],
    /// What m12 of each part is.
    pub degree: [Degree; K],
}
