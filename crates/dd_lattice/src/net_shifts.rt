ghost use Rattle.std.specs.Prelude.{◌≡◌, ℕ, ◌<◌, List, length, slice_index, slice_index_or, IfOk};
ghost use Rattle.dd_model.specs.Cell.{AreCells};
ghost use Rattle.dd_model.specs.Symbol.{IsChamber, op, item};
ghost use Rattle.dd_model.specs.Small.{IsSmallSymbol};
ghost use Rattle.dd_model.specs.declared.index.Index.TheVariants.{Zero};
ghost use Rattle.dd_model.specs.declared.pair.Pair.TheVariants.{Edge};
ghost use Rattle.dd_covers.specs.Torus.{IsTorus};
ghost use Rattle.dd_lattice.specs.Lists.{AreVertexNumbers};
ghost use Rattle.dd_lattice.specs.NetOf.{IsEdgeOf, IsNet};
ghost use Rattle.dd_lattice.specs.Nets.{IsConnectedNet};
ghost use Rattle.dd_lattice.specs.Paths.{shift_by};

use crate::crossing::Crossing;
use crate::edge_lists::{left_edges, vertex_numbers};
use crate::kinds::edge_kinds;
use crate::net::Net;
use crate::net_edge::NetEdge;
use crate::paths::Path;
use dd_cells::cells;
use dd_model::{Index, Memory, Pair};
use dd_symbol::{Connected, Symbol, item};
use std::alloc::Global;

/// What each chamber of a torus says of its edge in the net.
#[derive(Drop)]
struct Labels<'a> {
    symbol: &'a Symbol,
    /// The number of the vertex of each chamber.
    numbers: Vec<u32>,
    /// The path whose crossings are the first coordinate of the shifts.
    first: Path,
    /// The path whose crossings are the second coordinate.
    second: Path,
    ghost small: { IsSmallSymbol symbol.now },
    ghost numbers_whole: { length numbers.items ≡ symbol.now.size },
    ghost first_whole: { length first.exits.items ≡ symbol.now.size },
    ghost second_whole: { length second.exits.items ≡ symbol.now.size },
}

impl<'a> Labels<'a> {
    /// The edge of a chamber.
    fn edge(&self, chamber: u32) -> NetEdge
        requires { IsChamber self.now.symbol.now chamber }
        ensures from { result.from ≡ item self.now.numbers.items chamber }
        ensures to { result.to ≡ item self.now.numbers.items (op self.now.symbol.now Zero chamber) }
        ensures x { result.x ≡ shift_by self.now.symbol.now self.now.first.exits.items chamber }
        ensures y { result.y ≡ shift_by self.now.symbol.now self.now.second.exits.items chamber }
    {
        let symbol = self.symbol;
        NetEdge {
            from: item(&self.numbers, chamber),
            to: item(&self.numbers, symbol.op(Index::Zero, chamber)),
            x: self.first.shift(symbol, chamber),
            y: self.second.shift(symbol, chamber),
        }
    }

    /// The edges of the net, whose least chambers are `edges`.
    fn edges(&self, alloc: Global, edges: &[u32]) -> Result<Vec<NetEdge>, Memory>
        requires { AreCells self.now.symbol.now Edge edges.now }
        ensures many { IfOk result (λ all. length all.items ≡ length edges.now) }
        ensures each { IfOk result (λ all. (vertices : List ℕ) (k : ℕ) (e : NetEdge)
            → AreVertexNumbers self.now.symbol.now vertices self.now.numbers.items
            → k < length edges.now → IsEdgeOf self.now.symbol.now vertices
            (shift_by self.now.symbol.now self.now.first.exits.items)
            (shift_by self.now.symbol.now self.now.second.exits.items)
            (slice_index edges.now k) (slice_index_or all.items k e)) }
    {
        let mut all = Vec::with_capacity(alloc, edges.len())?;
        for k in 0..edges.len() {
            all.push(self.edge(edges[k]))?;
        }
        Ok(all)
    }
}

/// The net of a torus, with vertices and edges in the order of their least chambers.
pub fn shifts(alloc: Global, t: &Connected) -> Result<Net, Memory>
    requires { IsTorus t.now }
    ensures net { IfOk result (λ net. IsNet t.now net) }
    ensures connected { IfOk result (λ net. IsConnectedNet net) }
{
    let symbol = t.symbol();
    let edges = symbol.least_chambers(alloc, Pair::Edge)?;
    let kinds = edge_kinds(alloc, t, &edges)?;
    let left = left_edges(alloc, &edges, &kinds)?;
    let crossing = Crossing::of(alloc, symbol, &edges, &kinds)?;
    let vertices = cells(alloc, t, Pair::Vertex)?;
    let labels = Labels {
        symbol,
        numbers: vertex_numbers(alloc, t, &vertices)?,
        first: Path::closed(alloc, &crossing, left[0])?,
        second: Path::closed(alloc, &crossing, left[1])?,
    };
    Ok(Net {
        vertices: vertices.len() as u32,
        edges: labels.edges(alloc, &edges)?,
    })
}
