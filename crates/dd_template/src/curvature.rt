ghost use Rattle.std.specs.Prelude.{◌≡◌, ℕ, ◌≤◌, ◌*◌, ◌/◌, ◌↔◌, IsTrue, length};
ghost use Rattle.std.specs.List.{sum_by};
ghost use Rattle.dd_template.specs.Shares.{share, curvature_unit};

use crate::tables::{Degree, MultipleOf};
use crate::undone::Undone;
use dd_model::Pair;

/// The number of parts into which 1 is cut when curvature is counted. It is the least common
/// multiple of 1 to 64, so 1/c is a whole number of parts for each factor or degree c of a lawful
/// table.
const CURVATURE_UNIT: u128 = 1182266884102822267511361600;

/// A fraction 1/c, counted in parts of 1.
fn parts_of_whole(number: u32) -> u128
    ensures { result ≡ curvature_unit / number }
{
    if number == 0 {
        return 0;
    }
    CURVATURE_UNIT / number as u128
}

/// What an entry adds to the sum of a kind.
fn share_of(kind: MultipleOf, entry: Degree) -> u128
    ensures share { result ≡ share kind entry }
    ensures small { result ≤ curvature_unit }
{
    match (kind, entry) {
        (MultipleOf::Tile, Degree::OfTile(number)) => parts_of_whole(number),
        (MultipleOf::Vertex, Degree::OfVertex(number)) => parts_of_whole(number),
        (MultipleOf::Neither, Degree::Fixed(number)) => parts_of_whole(number),
        _ => 0,
    }
}

impl<'a, const K: usize> Undone<'a, K> {
    ghost use Rattle.dd_template.specs.Table.{table_of};
    ghost use Rattle.dd_template.specs.Shares.{KeepsCurvature};
    ghost use Rattle.dd_template.specs.Entries.{entries};

    /// The sum of a kind over the entries that belong to the tiles or to the vertices.
    fn total(&self, pair: Pair, kind: MultipleOf) -> u128
        requires entries { length (entries (table_of self.now.table.now) pair) ≡ K }
        ensures total { result ≡ sum_by (share kind) (entries (table_of self.now.table.now) pair) }
        ensures small { result ≤ 64 * curvature_unit }
    {
        let mut total = 0u128;
        for part in 0..K {
            total += share_of(kind, self.table.entry_of(pair, part));
        }
        total
    }

    /// Returns whether the table keeps the curvature of every symbol.
    pub(crate) fn keeps_curvature(&self) -> bool
        ensures { IsTrue result ↔ KeepsCurvature (table_of self.now.table.now) }
    {
        let tiles = self.total(Pair::Tile, MultipleOf::Tile)
            + self.total(Pair::Vertex, MultipleOf::Tile);
        let vertices = self.total(Pair::Tile, MultipleOf::Vertex)
            + self.total(Pair::Vertex, MultipleOf::Vertex);
        let fixed = self.total(Pair::Tile, MultipleOf::Neither)
            + self.total(Pair::Vertex, MultipleOf::Neither);
        tiles == CURVATURE_UNIT
            && vertices == CURVATURE_UNIT
            && 2 * fixed == (K - 1) as u128 * CURVATURE_UNIT
    }
}
