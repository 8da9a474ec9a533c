use crate::tables::{Degree, Move, Template};
use dd_model::Index;

const S0: Option<Index> = Some(Index::Zero);

const S1: Option<Index> = Some(Index::One);

const S2: Option<Index> = Some(Index::Two);

const STAY: Option<Index> = None;

/// Tiles and vertices exchanged.
pub const DUAL: Template<1> = Template {
    ops: [
        [Move { by: S2, to: 0 }],
        [Move { by: S1, to: 0 }],
        [Move { by: S0, to: 0 }],
    ],
    face: [Degree::OfVertex(1)],
    degree: [Degree::OfTile(1)],
};

/// A vertex on each edge.
pub const AMBO: Template<2> = Template {
    ops: [
        [Move { by: S1, to: 0 }, Move { by: S1, to: 1 }],
        [Move { by: S0, to: 0 }, Move { by: S2, to: 1 }],
        [Move { by: STAY, to: 1 }, Move { by: STAY, to: 0 }],
    ],
    face: [Degree::OfTile(1), Degree::OfVertex(1)],
    degree: [Degree::Fixed(4), Degree::Fixed(4)],
};

/// Each vertex cut off.
pub const TRUNCATE: Template<3> = Template {
    ops: [
        [
            Move { by: S0, to: 0 },
            Move { by: S1, to: 1 },
            Move { by: S1, to: 2 },
        ],
        [
            Move { by: STAY, to: 1 },
            Move { by: STAY, to: 0 },
            Move { by: S2, to: 2 },
        ],
        [
            Move { by: S2, to: 0 },
            Move { by: STAY, to: 2 },
            Move { by: STAY, to: 1 },
        ],
    ],
    face: [Degree::OfTile(2), Degree::OfTile(2), Degree::OfVertex(1)],
    degree: [Degree::Fixed(3), Degree::Fixed(3), Degree::Fixed(3)],
};

/// Each edge made a hexagon.
pub const CHAMFER: Template<4> = Template {
    ops: [
        [
            Move { by: S0, to: 0 },
            Move { by: S0, to: 1 },
            Move { by: STAY, to: 3 },
            Move { by: STAY, to: 2 },
        ],
        [
            Move { by: S1, to: 0 },
            Move { by: STAY, to: 2 },
            Move { by: STAY, to: 1 },
            Move { by: S2, to: 3 },
        ],
        [
            Move { by: STAY, to: 1 },
            Move { by: STAY, to: 0 },
            Move { by: S1, to: 2 },
            Move { by: S1, to: 3 },
        ],
    ],
    face: [
        Degree::OfTile(1),
        Degree::Fixed(6),
        Degree::Fixed(6),
        Degree::Fixed(6),
    ],
    degree: [
        Degree::Fixed(3),
        Degree::Fixed(3),
        Degree::Fixed(3),
        Degree::OfVertex(1),
    ],
};
