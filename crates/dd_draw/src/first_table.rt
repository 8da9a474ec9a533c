ghost use Rattle.std.specs.Prelude.{◌≡◌, ◌≢◌, ◌≤◌, ◌<◌, ◌+◌, ◌*◌, ◌^◌, ℕ, suc, pos, nat_abs, ◌-ℤ◌, length, IfOk, IfErr};
ghost use Rattle.dd_draw.specs.Elimination.{whole, first_entry, ends_at, joins};
ghost use Rattle.dd_draw.specs.Placement.{if_same};
ghost use Rattle.dd_draw.specs.FirstTable.{share_of};
ghost use Rattle.dd_draw.specs.Limit.{IsWide};
ghost use Rattle.dd_draw.specs.Rows.{AreMade, IsRowFault};

use crate::bounded_fraction::BoundedFraction;
use crate::fractions::LIMIT;
use crate::place_fault::PlaceFault;
use crate::small_net::SmallNet;
use dd_cells::Fraction;
use dd_lattice::{Net, NetEdge};
use std::alloc::Global;

/// Returns the shift of an edge that is no loop, as seen from a vertex, or 0 if it has no end
/// there.
fn shift_seen(edge: NetEdge, shift: i64, vertex: u32) -> i128
    requires { edge.from ≢ edge.to }
    ensures value { result ≡ if_same edge.from vertex shift -ℤ if_same edge.to vertex shift }
    ensures small { nat_abs result ≤ 2 ^ 63 }
{
    if edge.from == vertex {
        return i128::from(shift);
    }
    if edge.to == vertex {
        return -i128::from(shift);
    }
    0
}

/// Returns the number of ends that an edge that is no loop has at a vertex.
fn end_count(edge: NetEdge, vertex: u32) -> i128
    requires { edge.from ≢ edge.to }
    ensures value { result ≡ ends_at vertex edge }
    ensures small { nat_abs result ≤ 2 ^ 63 }
{
    if edge.from == vertex || edge.to == vertex {
        1
    } else {
        0
    }
}

/// Returns 1 if an edge joins two different vertices, and else 0.
fn join_count(edge: NetEdge, one: u32, other: u32) -> i128
    requires { one ≢ other }
    ensures value { result ≡ joins one other edge }
    ensures small { nat_abs result ≤ 2 ^ 63 }
{
    if edge.from == one && edge.to == other {
        return 1;
    }
    if edge.to == one && edge.from == other {
        return 1;
    }
    0
}

/// Returns what an edge adds to an entry of the first table. A loop adds nothing.
fn share(edge: NetEdge, vertices: u32, row: u32, column: u32) -> i128
    requires row { row < vertices }
    requires column { column ≤ vertices + 1 }
    ensures value { result ≡ share_of vertices row column edge }
    ensures small { nat_abs result ≤ 2 ^ 63 }
{
    if edge.from == edge.to {
        return 0;
    }
    if column == vertices {
        return shift_seen(edge, edge.x, row + 1);
    }
    if column > vertices {
        return shift_seen(edge, edge.y, row + 1);
    }
    if row == column {
        return end_count(edge, row + 1);
    }
    -join_count(edge, row + 1, column + 1)
}

/// Returns an entry of the first table.
fn first_entry(net: &Net, row: u32, column: u32) -> i128
    requires row { row < net.now.vertices }
    requires column { column ≤ net.now.vertices + 1 }
    ensures { result ≡ first_entry net.now row column }
{
    let mut sum = 0;
    for edge in &net.edges {
        sum += share(*edge, net.vertices, row, column);
    }
    sum
}

/// Returns a row of the first table.
pub(crate) fn first_row(
    alloc: Global,
    small: &SmallNet,
    row: u32,
) -> Result<Vec<BoundedFraction>, PlaceFault>
    requires { row < small.now.net.now.vertices }
    ensures made { IfOk result (λ new.
        AreMade (λ j. whole (first_entry small.now.net.now row (suc j)))
        (λ j. IsWide (whole (first_entry small.now.net.now row (suc j))))
        (small.now.net.now.vertices + 1) new.items) }
    ensures fault { IfErr result (λ why. IsRowFault 0 row (small.now.net.now.vertices + 1)
        (λ j. IsWide (whole (first_entry small.now.net.now row (suc j)))) why) }
{
    let net = small.net;
    let mut new = Vec::new(alloc);
    for place in 0..net.vertices + 1 {
        let column = place + 1;
        let entry = first_entry(net, row, column);
        if entry.unsigned_abs() > LIMIT {
            return Err(PlaceFault::TooWide {
                step: 0,
                row,
                column,
            });
        }
        let fraction = Fraction { num: entry, den: 1 };
        new.push(BoundedFraction { fraction })?;
    }
    Ok(new)
}
