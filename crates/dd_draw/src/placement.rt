ghost use Rattle.std.specs.Prelude.{◌≡◌, ◌≤◌, ◌<◌, ◌+◌, ℕ, length, Err, IfOk, IfErr};
ghost use Rattle.std.specs.List.{AllByRecursion};
ghost use Rattle.dd_draw.specs.Limit.{IsNarrowPoint};
ghost use Rattle.dd_draw.specs.Placement.{IsPlacement};
ghost use Rattle.dd_draw.specs.Points.{ArePointsTo};
ghost use Rattle.dd_draw.specs.Tables.{lists, row_at, IsPlaceFault};
ghost use Rattle.dd_draw.specs.declared.place_fault.PlaceFault.TheVariants as faults;
ghost use Rattle.dd_draw.specs.Width.{Place, IsPlaceOf, IsWideAt};

use crate::bounded_fraction::BoundedFraction;
use crate::place_fault::PlaceFault;
use crate::places::Places;
use crate::point::Point;
use crate::small_net::SmallNet;
use crate::tables::last_table;
use dd_cells::Fraction;
use dd_lattice::Net;
use dd_model::Memory;
use std::alloc::Global;

/// The greatest number of vertices of a net that is placed.
pub const MOST_VERTICES: u32 = 96;

/// Returns the points that the last table has. The first vertex is at the origin. The coordinates
/// of each other vertex are in the two columns of the shifts.
fn points_of(
    alloc: Global,
    small: &SmallNet,
    rows: &[Vec<BoundedFraction>],
) -> Result<Vec<Point>, Memory>
    requires { (i : ℕ) → i < length rows.now
        → length (row_at (lists rows.now) i) ≡ small.now.net.now.vertices + 1 }
    ensures { IfOk result (λ points. ArePointsTo small.now.net.now.vertices (length rows.now)
        (lists rows.now) points.items) }
{
    let vertices = small.net.vertices as usize;
    let zero = Fraction { num: 0, den: 1 };
    let mut points = Vec::new(alloc);
    points.push(Point { x: zero, y: zero })?;
    for place in 0..rows.len() {
        let row = rows[place].as_slice();
        points.push(Point {
            x: row[vertices - 1].fraction(),
            y: row[vertices].fraction(),
        })?;
    }
    Ok(points)
}

/// Returns the places of the vertices of a connected net. Each vertex is in the middle of the ends
/// that its edges lead to, and the first is at the origin.
pub fn place(alloc: Global, net: &Net) -> Result<Places, PlaceFault>
    ensures placement { IfOk result (λ places. IsPlacement net.now places.points.items) }
    ensures few { IfOk result (λ places. net.now.vertices ≤ 96) }
    ensures narrow { IfOk result (λ places.
        (p : Place) → IsPlaceOf net.now p → ¬ IsWideAt net.now p) }
    ensures within { IfOk result (λ places. AllByRecursion IsNarrowPoint places.points.items) }
    ensures many { 96 < net.now.vertices
        → result ≡ Err (faults.TooManyVertices net.now.vertices) }
    ensures fault { IfErr result (λ why. IsPlaceFault net.now why) }
{
    if net.vertices > MOST_VERTICES {
        return Err(PlaceFault::TooManyVertices {
            count: net.vertices,
        });
    }
    let small = SmallNet { net };
    let rows = last_table(alloc, &small)?;
    let points = points_of(alloc, &small, rows.as_slice())?;
    Ok(Places { points })
}
