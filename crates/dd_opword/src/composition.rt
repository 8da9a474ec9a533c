ghost use Rattle.std.specs.Prelude.{◌≡◌, ℕ, ◌*◌, ◌/◌, ◌%◌, ◌<◌, ◌≤◌};
ghost use Rattle.dd_template.specs.Entries.{entries};
ghost use Rattle.dd_template.specs.Lawful.{IsLawful};
ghost use Rattle.dd_template.specs.Table.{table_of, IsPart, move, entry};
ghost use Rattle.dd_opword.specs.Composed.{composed, composed_degree, composed_entries, composed_move, composed_moves, times};
ghost use Rattle.dd_opword.specs.Together.{GoTogether, IsSmallEntry};
ghost use Rattle.dd_template.specs.Applying.{HasSmallFactor};

use dd_model::{Index, Pair};
use dd_template::{Degree, Move, Template};

/// Returns the table that does what the inner table does, and then what the outer table does. The
/// outer part x of the inner part y, counted from 0, is the part y K + x.
pub fn compose<const K: usize, const L: usize, const M: usize>(
    outer: &Template<K>,
    inner: &Template<L>,
) -> Template<M>
    requires together { GoTogether (table_of outer.now) (table_of inner.now) }
    requires parts { M ≡ L * K }
    ensures table { table_of result ≡ composed (table_of outer.now) (table_of inner.now) }
    ensures lawful { IsLawful (table_of result) }
{
    Template {
        ops: [
            moves_of(outer, inner, Index::Zero),
            moves_of(outer, inner, Index::One),
            moves_of(outer, inner, Index::Two),
        ],
        face: entries_of(outer, inner, Pair::Tile),
        degree: entries_of(outer, inner, Pair::Vertex),
    }
}

/// Returns the moves of all parts by an involution.
fn moves_of<const K: usize, const L: usize, const M: usize>(
    outer: &Template<K>,
    inner: &Template<L>,
    index: Index,
) -> [Move; M]
    requires together { GoTogether (table_of outer.now) (table_of inner.now) }
    requires parts { M ≡ L * K }
    ensures { result ≡ composed_moves (table_of outer.now) (table_of inner.now) index }
{
    let mut moves = [Move { by: None, to: 0 }; M];
    for part in 0..M {
        moves[part] = move_of(outer, inner, index, part);
    }
    moves
}

/// Returns the move of a part by an involution: if the outer move goes by an involution of the
/// inner table, the inner part goes by its move of that index.
fn move_of<const K: usize, const L: usize>(
    outer: &Template<K>,
    inner: &Template<L>,
    index: Index,
    part: usize,
) -> Move
    requires together { GoTogether (table_of outer.now) (table_of inner.now) }
    requires part { part < L * K }
    ensures { result ≡ composed_move (table_of outer.now) (table_of inner.now) (part / K)
        (move (table_of outer.now) index (part % K)) }
{
    let from = part / K;
    let there = outer.move_of(index, part % K);
    match there.by {
        None => Move {
            by: None,
            to: from * K + there.to,
        },
        Some(by) => {
            let inside = inner.move_of(by, from);
            Move {
                by: inside.by,
                to: inside.to * K + there.to,
            }
        }
    }
}

/// Returns the entries of all parts that belong to tiles or to vertices.
fn entries_of<const K: usize, const L: usize, const M: usize>(
    outer: &Template<K>,
    inner: &Template<L>,
    pair: Pair,
) -> [Degree; M]
    requires together { GoTogether (table_of outer.now) (table_of inner.now) }
    requires parts { M ≡ L * K }
    ensures { result ≡ composed_entries (table_of outer.now) (table_of inner.now) pair }
{
    let mut entries = [Degree::Fixed(0); M];
    for part in 0..M {
        entries[part] = entry_of(inner, part / K, outer.entry_of(pair, part % K));
    }
    entries
}

/// Returns what an outer entry is over an inner part.
fn entry_of<const L: usize>(inner: &Template<L>, part: usize, entry: Degree) -> Degree
    requires lawful { IsLawful (table_of inner.now) }
    requires part { IsPart (table_of inner.now) part }
    requires factor { HasSmallFactor entry }
    ensures { result ≡ composed_degree (table_of inner.now) part entry }
{
    match entry {
        Degree::OfTile(factor) => times(factor, inner.entry_of(Pair::Tile, part)),
        Degree::OfVertex(factor) => times(factor, inner.entry_of(Pair::Vertex, part)),
        Degree::Fixed(degree) => Degree::Fixed(degree),
    }
}

/// Returns a multiple of an entry.
fn times(factor: u32, entry: Degree) -> Degree
    requires factor { factor ≤ 64 }
    requires entry { IsSmallEntry entry }
    ensures { result ≡ times factor entry }
{
    match entry {
        Degree::OfTile(other) => Degree::OfTile(factor * other),
        Degree::OfVertex(other) => Degree::OfVertex(factor * other),
        Degree::Fixed(degree) => Degree::Fixed(factor * degree),
    }
}
