ghost use Rattle.std.specs.Prelude.{◌≡◌, ◌≤◌, ℕ, ℤ, nat_abs, length, IfOk};
ghost use Rattle.dd_model.specs.Symbol.{IsChamber};
ghost use Rattle.dd_lattice.specs.NetOf.{IsNet};
ghost use Rattle.dd_gram.specs.Shifts.{IsPutAt, AreNumbers};

use crate::torus::Torus;
use dd_model::{Index, Memory};
use dd_symbol::Connected;
use std::alloc::Global;

/// Writes a number at the two chambers that pass an edge one way, and its opposite at the others.
fn put(list: &mut Vec<i64>, t: &Connected, chamber: u32, value: i64)
    requires chamber { IsChamber t.now chamber }
    requires whole { length list.old.items ≡ t.now.size }
    requires small { nat_abs value ≤ 1 }
    ensures { IsPutAt t.now chamber value list.old.items list.new.items }
{
    let symbol = t.symbol();
    let across = symbol.op(Index::Two, chamber);
    list[chamber as usize - 1] = value;
    list[across as usize - 1] = value;
    list[symbol.op(Index::Zero, chamber) as usize - 1] = -value;
    list[symbol.op(Index::Zero, across) as usize - 1] = -value;
}

/// The shift of the edge of each chamber, away from the vertex of the chamber.
#[derive(Drop)]
pub(crate) struct EdgeNumbers {
    /// The first coordinate, by chambers.
    pub x: Vec<i64>,
    /// The second coordinate.
    pub y: Vec<i64>,
}

impl EdgeNumbers {
    /// Reads the shifts of the edges of a net at their least chambers.
    pub(crate) fn new(alloc: Global, torus: &Torus) -> Result<EdgeNumbers, Memory>
        ensures x { IfOk result (λ numbers. (is : IsNet torus.now.symbol torus.now.net)
            → AreNumbers torus.now.symbol is.first numbers.x.items) }
        ensures y { IfOk result (λ numbers. (is : IsNet torus.now.symbol torus.now.net)
            → AreNumbers torus.now.symbol is.second numbers.y.items) }
    {
        let t = torus.symbol;
        let edges = torus.edges.as_slice();
        let size = t.symbol().size() as usize;
        let mut x = vec![in alloc; 0i64; size]?;
        let mut y = vec![in alloc; 0i64; size]?;
        for k in 0..edges.len() {
            let edge = torus.net.edges[k];
            put(&mut x, t, edges[k], edge.x);
            put(&mut y, t, edges[k], edge.y);
        }
        Ok(EdgeNumbers { x, y })
    }
}
