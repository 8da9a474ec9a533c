ghost use Rattle.std.specs.Prelude.{◌≡◌, [], ◌∷◌, ◌++◌, ◌≤◌, ◌<◌, ◌*◌, ◌^◌, length, nat_abs, slice_index_or, OnOk, OnErr, string_bytes};
ghost use Rattle.std.specs.List.{AllByRecursion, flat_map};
ghost use Rattle.dd_draw.specs.Spots.{IsSmallSpot, corners, from_spot, to_spot};
ghost use Rattle.dd_draw.specs.Extents.{extent_of, IsSmallExtent};
ghost use Rattle.dd_draw.specs.Document.{head_text, cell_text, outline_text, line_text, edge_text, circle_text, vertex_text, document};

use crate::extent::Extent;
use crate::places::Places;
use crate::point::Point;
use crate::spot::{Spot, second_side};
use dd_lattice::{Net, NetEdge};
use dd_model::{Frame, Memory};
use std::alloc::AllocError;
use std::fmt::Write;

/// Returns the corners of the cell after the first.
fn corners(frame: Frame) -> [Spot; 3]
    ensures same { result ≡ corners frame }
    ensures small { AllByRecursion IsSmallSpot result }
{
    let (lean, rise) = second_side(frame);
    [
        Spot { x: 1000, y: 0 },
        Spot {
            x: 1000 + lean,
            y: rise,
        },
        Spot { x: lean, y: rise },
    ]
}

/// Appends the head of a drawing. The drawing shows the box with a margin of 100.
fn put_head(text: &mut String, extent: Extent) -> Result<(), AllocError>
    requires { IsSmallExtent extent }
    ensures { OnOk result (string_bytes text.new ≡ string_bytes text.old ++ head_text extent) }
{
    writeln!(
        text,
        "<svg xmlns=\"http://www.w3.org/2000/svg\" viewBox=\"{} {} {} {}\" \
         fill=\"none\" stroke=\"black\" stroke-width=\"6\">",
        extent.left - 100,
        extent.top - 100,
        extent.right.abs_diff(extent.left) + 200,
        extent.bottom.abs_diff(extent.top) + 200
    )
}

/// Appends the path round the cell.
fn put_cell(text: &mut String, frame: Frame) -> Result<(), AllocError>
    ensures { OnOk result (string_bytes text.new ≡ string_bytes text.old ++ cell_text frame) }
{
    let [one, two, three] = corners(frame);
    put_outline(text, one, two, three)
}

/// Appends the closed path from the start through three spots.
fn put_outline(text: &mut String, one: Spot, two: Spot, three: Spot) -> Result<(), AllocError>
    ensures { OnOk result (string_bytes text.new
        ≡ string_bytes text.old ++ outline_text (one ∷ two ∷ three ∷ [])) }
{
    write!(
        text,
        "<path d=\"M0 0L{} {}L{} {}",
        one.x, one.y, two.x, two.y
    )?;
    writeln!(text, "L{} {}Z\" stroke=\"silver\"/>", three.x, three.y)
}

/// Appends the circle of a vertex that is printed at a spot, with the exact coordinates of its
/// point.
fn put_circle(text: &mut String, spot: Spot, point: &Point) -> Result<(), AllocError>
    ensures { OnOk result
        (string_bytes text.new ≡ string_bytes text.old ++ circle_text spot point.now) }
{
    write!(
        text,
        "<circle cx=\"{}\" cy=\"{}\" r=\"12\" data-at=\"",
        spot.x, spot.y
    )?;
    writeln!(
        text,
        "{}/{} {}/{}\"/>",
        point.x.num, point.x.den, point.y.num, point.y.den
    )
}

/// Returns the two ends of an edge.
fn ends_of(frame: Frame, points: &[Point], edge: NetEdge) -> (Spot, Spot)
    requires from { (1 ≤ edge.from) × (edge.from ≤ length points.now) }
    requires to { (1 ≤ edge.to) × (edge.to ≤ length points.now) }
    ensures from { result.0 ≡ from_spot frame points.now edge }
    ensures to { result.1 ≡ to_spot frame points.now edge }
    ensures small { IsSmallSpot result.0 × IsSmallSpot result.1 }
{
    let from = Spot::of(frame, &points[edge.from as usize - 1]);
    let to = Spot::of(frame, &points[edge.to as usize - 1]);
    (from, to.moved(frame, edge.x, edge.y))
}

/// Appends a line from a spot to another.
fn put_edge(text: &mut String, from: Spot, to: Spot) -> Result<(), AllocError>
    ensures { OnOk result (string_bytes text.new ≡ string_bytes text.old ++ line_text from to) }
{
    writeln!(
        text,
        "<path d=\"M{} {}L{} {}\"/>",
        from.x, from.y, to.x, to.y
    )
}

/// A net whose vertices are at some points.
#[derive(Drop)]
struct Drawing<'a> {
    frame: Frame,
    net: &'a Net,
    points: &'a [Point],
    ghost count: { length points.now ≡ net.now.vertices },
}

impl<'a> Drawing<'a> {
    /// Returns the least box that has all that is printed of the cell and of the edges.
    fn extent(&self) -> Extent
        ensures same { result ≡ extent_of self.now.frame self.now.net.now.edges.items
            self.now.points.now }
        ensures small { IsSmallExtent result }
    {
        let [one, two, three] = corners(self.frame);
        let mut extent = Extent::at_start().with(one).with(two).with(three);
        for edge in &self.net.edges {
            let (from, to) = ends_of(self.frame, self.points, *edge);
            extent = extent.with(from).with(to);
        }
        extent
    }

    /// Appends the edges in their order.
    fn put_edges(&self, text: &mut String) -> Result<(), AllocError>
        ensures { OnOk result (string_bytes text.new ≡ string_bytes text.old
            ++ flat_map (edge_text self.now.frame self.now.points.now)
            self.now.net.now.edges.items) }
    {
        for edge in &self.net.edges {
            let (from, to) = ends_of(self.frame, self.points, *edge);
            put_edge(text, from, to)?;
        }
        Ok(())
    }

    /// Appends the vertices in their order.
    fn put_vertices(&self, text: &mut String) -> Result<(), AllocError>
        ensures { OnOk result (string_bytes text.new ≡ string_bytes text.old
            ++ flat_map (vertex_text self.now.frame) self.now.points.now) }
    {
        for point in self.points {
            put_circle(text, Spot::of(self.frame, point), point)?;
        }
        Ok(())
    }

    /// Appends the drawing.
    fn put(&self, text: &mut String) -> Result<(), AllocError>
        ensures { OnOk result (string_bytes text.new ≡ string_bytes text.old
            ++ document self.now.frame self.now.net.now.edges.items self.now.points.now) }
    {
        put_head(text, self.extent())?;
        put_cell(text, self.frame)?;
        self.put_edges(text)?;
        self.put_vertices(text)?;
        writeln!(text, "</svg>")
    }
}

/// Appends the drawing of a placed net: its cell, its edges and its vertices with their exact
/// places. Returns `Err` only if an allocation fails. The text is then as before.
pub fn svg(out: &mut Vec<u8>, net: &Net, places: &Places, frame: Frame) -> Result<(), Memory>
    requires count { length places.now.points.items ≡ net.now.vertices }
    ensures drawing { OnOk result (out.new.items
        ≡ out.old.items ++ document frame net.now.edges.items places.now.points.items) }
    ensures same { OnErr result (out.new.items ≡ out.old.items) }
{
    let mut text = String::new(*out.allocator());
    let points = places.points.as_slice();
    Drawing { frame, net, points }.put(&mut text)?;
    Ok(out.extend_from_slice(text.as_bytes())?)
}
