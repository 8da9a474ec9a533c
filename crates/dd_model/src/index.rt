ghost use Rattle.std.specs.Prelude.{◌≡◌, ◌<◌};
ghost use Rattle.dd_model.specs.Indices.{index_number};

/// One of the three involutions.
#[derive(Debug, Clone, Copy, PartialEq, Eq)]
pub enum Index {
    /// s0, which changes the vertex of a chamber.
    Zero,
    /// s1, which changes the edge of a chamber.
    One,
    /// s2, which changes the tile of a chamber.
    Two,
}

impl Index {
    /// All three.
    pub const ALL: [Index; 3] = [Index::Zero, Index::One, Index::Two];

    /// Its number: 0 for s0, 1 for s1 and 2 for s2.
    pub fn number(self) -> u8
        ensures number { result ≡ index_number self }
        ensures small { result < 3 }
    {
        match self {
            Index::Zero => 0,
            Index::One => 1,
            Index::Two => 2,
        }
    }
}
