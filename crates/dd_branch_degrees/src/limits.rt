ghost use Rattle.std.specs.Prelude.{◌≡◌, ◌↔◌, ◌⊎◌, ◌≤◌, IsTrue, length};
ghost use Rattle.dd_branch_degrees.specs.Assignment.{HasLimits};
ghost use Rattle.dd_branch_degrees.specs.Budget.{cells_to};
ghost use Rattle.dd_branch_degrees.specs.Place.{ArePlaces};

use crate::places::DegreeSlot;
use dd_model::Request;
use dd_symbol::Connected;

/// Returns how many cells some places have: each cell has sides at one of them.
fn count_cells(places: &[DegreeSlot]) -> u32
    requires { length places.now ≤ 72 }
    ensures { result ≡ cells_to places.now (length places.now) }
{
    let mut cells = 0;
    for k in 0..places.len() {
        cells += u32::from(places[k].sides.min(1));
    }
    cells
}

/// Returns whether some places have at most `limit` cells, where 0 sets no limit.
fn tell_at_most(places: &[DegreeSlot], limit: u32) -> bool
    requires { length places.now ≤ 72 }
    ensures { IsTrue result
        ↔ ((limit ≡ 0) ⊎ (cells_to places.now (length places.now) ≤ limit)) }
{
    limit == 0 || count_cells(places) <= limit
}

/// Returns whether a table has no more chambers and classes than a request asks for. Each symbol
/// with its involutions has the same numbers. The places of its degrees give the classes too, and
/// no cell is walked.
pub(crate) fn has_limits(t: &Connected, places: &[DegreeSlot], q: &Request) -> bool
    requires small { t.now.size ≤ 36 }
    requires places { ArePlaces q.now t.now places.now }
    ensures { IsTrue result ↔ HasLimits q.now t.now }
{
    let size = t.symbol().size();
    let (tiles, vertices) = places.split_at(size as usize);
    if size > q.chambers {
        return false;
    }
    if !tell_at_most(tiles, q.tiles) {
        return false;
    }
    tell_at_most(vertices, q.vertices)
}
