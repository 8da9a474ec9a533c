ghost use Rattle.std.specs.Prelude.{◌≡◌, ℕ, ◌+◌, ◌<◌, length, slice_index, IfOk};
ghost use Rattle.std.specs.Bool.{OnTrue, OnFalse};
ghost use Rattle.dd_model.specs.Cell.{AreCells};
ghost use Rattle.dd_model.specs.Symbol.{IsChamber, op};
ghost use Rattle.dd_model.specs.Small.{IsSmallSymbol};
ghost use Rattle.dd_model.specs.declared.pair.Pair.TheVariants.{Edge};
ghost use Rattle.dd_symbol.specs.Cells.{IsLeastFor};
ghost use Rattle.dd_lattice.specs.Edges.{IsKindOf, AreKindsOf, AreVerticesTo, AreTilesTo};
ghost use Rattle.dd_union_find.specs.Parts.{IsFalling, AreInOnePart, AreJoinedAt};

use dd_model::{Index, Memory, Pair};
use dd_symbol::Connected;
use dd_union_find::Forest;
use std::alloc::Global;

/// What an edge is in a net.
#[derive(Clone, Copy)]
pub enum EdgeKind {
    /// Its two vertices are not joined by smaller edges.
    Tree,
    /// It is no tree edge, and its two tiles are not joined across smaller edges that are none.
    Crossing,
    /// Neither.
    Left,
}

impl EdgeKind {
    ghost use Rattle.dd_lattice.specs.Edges.{is_crossing, is_left};

    /// Returns whether it is a crossing edge.
    pub fn is_crossing(self) -> bool
        ensures { result ≡ is_crossing self }
    {
        match self {
            EdgeKind::Crossing => true,
            EdgeKind::Tree | EdgeKind::Left => false,
        }
    }

    /// Returns whether it is left.
    pub fn is_left(self) -> bool
        ensures { result ≡ is_left self }
    {
        match self {
            EdgeKind::Left => true,
            EdgeKind::Tree | EdgeKind::Crossing => false,
        }
    }
}

/// Joins the parts of the two cells of a chamber and of its image, and returns whether they were
/// two.
fn join_cells(above: &mut Forest, t: &Connected, pair: Pair, i: Index, chamber: u32) -> bool
    requires chamber { IsChamber t.now chamber }
    requires nodes { length above.old ≡ t.now.size + 1 }
    ensures symbol { IsSmallSymbol t.now }
    ensures falls { IsFalling above.new }
    ensures joined { (a b : ℕ) → IsLeastFor t.now pair chamber a
        → IsLeastFor t.now pair (op t.now i chamber) b
        → AreJoinedAt above.old a b above.new }
    ensures two { (a b : ℕ) → IsLeastFor t.now pair chamber a
        → IsLeastFor t.now pair (op t.now i chamber) b
        → OnTrue result (AreInOnePart above.old a b → ⊥) }
    ensures one_part { (a b : ℕ) → IsLeastFor t.now pair chamber a
        → IsLeastFor t.now pair (op t.now i chamber) b
        → OnFalse result (AreInOnePart above.old a b) }
{
    let symbol = t.symbol();
    let one = symbol.cell(pair, chamber).least;
    let other = symbol.cell(pair, symbol.op(i, chamber)).least;
    above.join(one, other)
}

/// What an edge is, after the smaller ones. Its two vertices are joined, and where they were joined
/// before, its two tiles.
fn kind_of(
    t: &Connected,
    edges: &[u32],
    k: usize,
    vertices: &mut Forest,
    tiles: &mut Forest,
) -> EdgeKind
    requires edges { AreCells t.now Edge edges.now }
    requires inside { k < length edges.now }
    requires vertices { AreVerticesTo t.now edges.now k vertices.old }
    requires tiles { AreTilesTo t.now edges.now k tiles.old }
    ensures kind { IsKindOf t.now (slice_index edges.now k) result }
    ensures vertices { AreVerticesTo t.now edges.now (k + 1) vertices.new }
    ensures tiles { AreTilesTo t.now edges.now (k + 1) tiles.new }
{
    if join_cells(vertices, t, Pair::Vertex, Index::Zero, edges[k]) {
        return EdgeKind::Tree;
    }
    if join_cells(tiles, t, Pair::Tile, Index::Two, edges[k]) {
        return EdgeKind::Crossing;
    }
    EdgeKind::Left
}

/// What each edge is, in the order of the least chambers of the edges.
pub fn edge_kinds(alloc: Global, t: &Connected, edges: &[u32]) -> Result<Vec<EdgeKind>, Memory>
    requires { AreCells t.now Edge edges.now }
    ensures { IfOk result (λ kinds. AreKindsOf t.now edges.now kinds.items) }
{
    let nodes = t.symbol().size() + 1;
    let mut vertices = Forest::new(alloc, nodes)?;
    let mut tiles = Forest::new(alloc, nodes)?;
    let mut kinds = Vec::new(alloc);
    for k in 0..edges.len() {
        kinds.push(kind_of(t, edges, k, &mut vertices, &mut tiles))?;
    }
    Ok(kinds)
}
