ghost use Rattle.std.specs.Prelude.{◌≡◌, ◌≢◌};
ghost use Rattle.dd_name.specs.Flags.{IsOfPair, AreLetters};
ghost use Rattle.dd_name.specs.Rounds.{first_pair as first_pair_of};

use dd_model::{Index, Pair};

/// A chamber and an involution, which fixes it where the chamber lies at the border.
#[derive(Debug, Clone, Copy, PartialEq, Eq)]
pub struct Flag {
    /// The chamber.
    pub chamber: u32,
    /// The involution.
    pub index: Index,
}

impl Flag {
    ghost use Rattle.std.specs.Prelude.{◌*◌, ◌+◌, ◌^◌, ◌<◌};
    ghost use Rattle.dd_name.specs.Flags.{place_of};

    /// The place in the order of flags.
    pub fn place(self) -> usize
        ensures { result ≡ place_of self }
    {
        3 * self.chamber as usize + usize::from(self.index.number())
    }

    /// The flag at a place.
    pub fn at(place: usize) -> Flag
        requires { place < 2 ^ 32 }
        ensures { place_of result ≡ place }
    {
        let chamber = (place / 3) as u32;
        let index = match place % 3 {
            0 => Index::Zero,
            1 => Index::One,
            _ => Index::Two,
        };
        Flag { chamber, index }
    }
}

/// The other involution of a pair.
pub(crate) fn other_index(pair: Pair, index: Index) -> Index
    requires { IsOfPair pair index }
    ensures { AreLetters pair index result }
{
    match (pair, index) {
        (Pair::Tile, Index::Zero) => Index::One,
        (Pair::Vertex, Index::One) => Index::Two,
        (Pair::Vertex, _) => Index::One,
        (Pair::Edge, Index::Zero) => Index::Two,
        (_, _) => Index::Zero,
    }
}

/// The first of the two pairs that hold an involution.
pub(crate) fn first_pair(index: Index) -> Pair
    ensures { result ≡ first_pair_of index }
{
    match index {
        Index::Zero | Index::One => Pair::Tile,
        Index::Two => Pair::Vertex,
    }
}

/// The other of the two pairs that hold an involution.
pub(crate) fn other_pair(pair: Pair, index: Index) -> Pair
    requires { IsOfPair pair index }
    ensures holds { IsOfPair result index }
    ensures other { pair ≢ result }
{
    match (index, pair) {
        (Index::Zero, Pair::Tile) => Pair::Edge,
        (Index::Zero, _) => Pair::Tile,
        (Index::One, Pair::Tile) => Pair::Vertex,
        (Index::One, _) => Pair::Tile,
        (Index::Two, Pair::Vertex) => Pair::Edge,
        (Index::Two, _) => Pair::Vertex,
    }
}
