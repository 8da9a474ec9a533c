ghost use Rattle.std.specs.Prelude.{◌≡◌, Some};
ghost use Rattle.dd_model.specs.Names.{pair_name};

use crate::index::Index;
use std::fmt;

/// Two of the three involutions. Their orbits are the tiles, the vertices and the edges.
#[derive(Debug, Clone, Copy, PartialEq, Eq)]
pub enum Pair {
    /// s0 and s1.
    Tile,
    /// s1 and s2.
    Vertex,
    /// s0 and s2.
    Edge,
}

impl Pair {
    ghost use Rattle.dd_model.specs.Symbol.{first, second};

    /// The first involution of the pair.
    pub fn first(self) -> Index
        ensures { result ≡ first self }
    {
        match self {
            Pair::Tile => Index::Zero,
            Pair::Vertex => Index::One,
            Pair::Edge => Index::Zero,
        }
    }

    /// The second involution of the pair.
    pub fn second(self) -> Index
        ensures { result ≡ second self }
    {
        match self {
            Pair::Tile => Index::One,
            Pair::Vertex => Index::Two,
            Pair::Edge => Index::Two,
        }
    }
}

impl fmt::Display for Pair {
    ghost output = { λ pair. Some (pair_name pair) };

    fn fmt<W: fmt::Write>(&self, f: &mut fmt::Formatter<W>) -> fmt::Result {
        match self {
            Pair::Tile => f.write_str("tile"),
            Pair::Vertex => f.write_str("vertex"),
            Pair::Edge => f.write_str("edge"),
        }
    }
}
