ghost use Rattle.std.specs.Prelude.{◌≤◌, IfOk, IfErr, OnOk};
ghost use Rattle.std.specs.List.{AllByRecursion};
ghost use Rattle.dd_model.specs.Reading.{IsReadable};
ghost use Rattle.dd_draw.specs.Placement.{IsPlacement};
ghost use Rattle.dd_draw.specs.Width.{Place, IsPlaceOf, IsWideAt};
ghost use Rattle.dd_suite_commands.specs.Drawings.{IsCell, IsWideNet, IsUndrawn, AddsDrawing, AreDrawings, IsFirstUndrawn};
ghost use Rattle.dd_suite_commands.specs.DrawnNets.{IsDrawable, AddsNetDrawing};
ghost use Rattle.dd_suite_commands.specs.Made.{IsLeastTorus};
ghost use Rattle.dd_suite_commands.specs.Stops.{IsStop};

use crate::refusals::{SymbolFault, SymbolRefusal};
use crate::stop::Stop;
use crate::symbol_commands::flat_torus;
use dd_canon::least_form_with;
use dd_cells::count;
use dd_draw::{MOST_VERTICES, PlaceFault, Places, place, svg};
use dd_gram::{gram, own_frame};
use dd_lattice::{Net, shifts};
use dd_model::{Frame, Memory, Pair};
use dd_symbol::Connected;
use std::alloc::Global;

/// The least form of a torus cover, and its net.
#[derive(Drop)]
struct TorusNet {
    torus: Connected,
    net: Net,
}

/// Returns the least form of the torus cover, and its net. The vertices are counted in the cover,
/// which has equally many, before the least form is taken.
fn torus_net(alloc: Global, s: &Connected) -> Result<TorusNet, Stop<SymbolFault>>
    requires { IsReadable s.now }
    ensures least { IfOk result (λ of. IsLeastTorus s.now of.torus) }
    ensures drawable { IfOk result (λ of. IsDrawable of) }
    ensures why { IfErr result (IsStop (IsUndrawn s.now)) }
{
    let cover = flat_torus(alloc, s)?;
    let count = count(&cover.symbol, Pair::Vertex);
    if count > MOST_VERTICES {
        return Err(Stop::Refused(SymbolFault::TooManyVertices { count }));
    }
    let torus = least_form_with(alloc, &cover.symbol, cover.turn.as_slice())?;
    let net = shifts(alloc, &torus)?;
    Ok(TorusNet { torus, net })
}

/// Where the vertices of a net stand.
fn places_of(alloc: Global, net: &Net) -> Result<Places, Stop<SymbolFault>>
    requires { net.now.vertices ≤ 96 }
    ensures placement { IfOk result (λ places. IsPlacement net.now places.points.items) }
    ensures narrow { IfOk result (λ places.
        (p : Place) → IsPlaceOf net.now p → ¬ IsWideAt net.now p) }
    ensures why { IfErr result (IsStop (IsWideNet net.now)) }
{
    match place(alloc, net) {
        Ok(places) => Ok(places),
        Err(PlaceFault::TooManyVertices { .. }) => unreachable!(),
        Err(PlaceFault::TooWide { step, row, column }) => {
            Err(Stop::Refused(SymbolFault::TooWide { step, row, column }))
        }
        Err(PlaceFault::Memory) => Err(Stop::Memory),
    }
}

/// Returns the cell in which a torus is drawn: one of the shape that is given, or its own.
fn cell_of(alloc: Global, shape: Option<Frame>, of: &TorusNet) -> Result<Frame, Memory>
    requires { IsDrawable of.now }
    ensures { IfOk result (IsCell shape of.now.torus) }
{
    match shape {
        Some(frame) => Ok(frame),
        None => Ok(own_frame(&gram(alloc, &of.torus, &of.net)?)),
    }
}

/// Appends the drawing of a torus.
fn put_net(out: &mut Vec<u8>, shape: Option<Frame>, of: &TorusNet) -> Result<(), Stop<SymbolFault>>
    requires { IsDrawable of.now }
    ensures text { OnOk result (AddsNetDrawing shape of.now out.old.items out.new.items) }
    ensures why { IfErr result (IsStop (IsWideNet of.now.net)) }
{
    let alloc = *out.allocator();
    let places = places_of(alloc, &of.net)?;
    let frame = cell_of(alloc, shape, of)?;
    svg(out, &of.net, &places, frame)?;
    Ok(())
}

/// Appends the drawing of a symbol.
fn put_drawing(
    out: &mut Vec<u8>,
    shape: Option<Frame>,
    s: &Connected,
) -> Result<(), Stop<SymbolFault>>
    requires { IsReadable s.now }
    ensures text { OnOk result (AddsDrawing shape s.now out.old.items out.new.items) }
    ensures why { IfErr result (IsStop (IsUndrawn s.now)) }
{
    let of = torus_net(*out.allocator(), s)?;
    put_net(out, shape, &of)
}

/// The drawings of symbols, one after the other.
pub(crate) fn drawings_of(
    alloc: Global,
    shape: Option<Frame>,
    symbols: &[Connected],
) -> Result<Vec<u8>, Stop<SymbolRefusal>>
    requires { AllByRecursion IsReadable symbols.now }
    ensures text { IfOk result (λ text. AreDrawings shape symbols.now text.items) }
    ensures why { IfErr result (IsStop (IsFirstUndrawn shape 1 symbols.now)) }
{
    let mut text = Vec::new(alloc);
    for (before, symbol) in symbols.iter().enumerate() {
        if let Err(stop) = put_drawing(&mut text, shape, symbol) {
            return Err(stop.at(before + 1));
        }
    }
    Ok(text)
}
