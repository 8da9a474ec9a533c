ghost use Rattle.std.specs.Prelude.{◌≡◌, ◌++◌, ◌+◌, ◌<◌, ◌≤◌, List, Bool, decimal, codes, length, map, OnOk, OnErr, All};
ghost use Rattle.dd_model.specs.Line.{IsLine, after_space, spaced};
ghost use Rattle.dd_model.specs.Symbol.{IsChamber, degree};
ghost use Rattle.dd_model.specs.Text.{AreLines};
ghost use Rattle.dd_text.specs.Told.{TellsImage};
ghost use Rattle.dd_model.specs.Longer.{IsLonger};
ghost use Rattle.dd_text.specs.Writing.{next_number, AddsLine, AddsLines};

use crate::outline::Outline;
use dd_model::{Memory, Pair, put_bytes};
use dd_symbol::{Connected, Symbol};
use itoa::Buffer;

/// Appends the line of number k: `<1.k:n:` with the number n of chambers, the images of the three
/// involutions, the degrees of the tiles and of the vertices, and `>` with a line feed. At `Err`
/// the text is as before.
pub fn put_line(out: &mut Vec<u8>, k: u128, symbol: &Symbol) -> Result<(), Memory>
    ensures line { OnOk result (AddsLine k symbol.now out.old.items out.new.items) }
    ensures same { OnErr result (out.new.items ≡ out.old.items) }
{
    let mut outline = Outline::of(*out.allocator(), k, symbol)?;
    outline.put_line(out, symbol)
}

/// Appends the lines of some symbols, numbered from `before + 1` on. At `Err` the text is as
/// before.
pub fn put_lines(out: &mut Vec<u8>, before: u64, symbols: &[Connected]) -> Result<(), Memory>
    ensures lines { OnOk result (AddsLines before symbols.now out.old.items out.new.items) }
    ensures same { OnErr result (out.new.items ≡ out.old.items) }
{
    let length = out.len();
    let written = append_lines(out, before, symbols);
    if written.is_err() {
        out.truncate(length);
    }
    written
}

fn append_lines(out: &mut Vec<u8>, before: u64, symbols: &[Connected]) -> Result<(), Memory>
    ensures lines { OnOk result (AddsLines before symbols.now out.old.items out.new.items) }
    ensures longer { IsLonger out.old.items out.new.items }
{
    let Some(first) = symbols.first() else {
        return Ok(());
    };
    let mut last = first.symbol();
    let mut outline = Outline::of(*out.allocator(), u128::from(before), last)?;
    for connected in symbols {
        let symbol = connected.symbol();
        outline.follow(last, symbol)?;
        last = symbol;
        outline.advance()?;
        outline.put_line(out, symbol)?;
    }
    Ok(())
}

/// Appends the degrees of the cells at their least chambers, and the line's end.
pub(crate) fn put_cells(
    out: &mut Vec<u8>,
    symbol: &Symbol,
    tiles: &[u32],
    vertices: &[u32],
) -> Result<(), Memory>
    requires tiles { All (IsChamber symbol.now) tiles.now }
    requires vertices { All (IsChamber symbol.now) vertices.now }
    ensures { OnOk result (out.new.items ≡ out.old.items
        ++ spaced (map (degree symbol.now Pair.Tile) tiles.now) ++ codes ","
        ++ spaced (map (degree symbol.now Pair.Vertex) vertices.now) ++ codes ">\n") }
{
    put_degrees(out, symbol, Pair::Tile, tiles)?;
    put_bytes(out, b",")?;
    put_degrees(out, symbol, Pair::Vertex, vertices)?;
    put_bytes(out, b">\n")
}

/// Appends a space and the image of a chamber under an involution, if the line doesn't have the two
/// yet.
#[inline(always)]
pub(crate) fn put_image(out: &mut Vec<u8>, chamber: u32, image: u32) -> Result<(), Memory>
    ensures { OnOk result (TellsImage chamber image out.old.items out.new.items) }
{
    if image < chamber {
        return Ok(());
    }
    put_spaced(out, image)?;
    Ok(())
}

/// Appends the degrees of a pair at some chambers.
fn put_degrees(
    out: &mut Vec<u8>,
    symbol: &Symbol,
    pair: Pair,
    chambers: &[u32],
) -> Result<(), Memory>
    requires { All (IsChamber symbol.now) chambers.now }
    ensures { OnOk result (out.new.items ≡ out.old.items
        ++ spaced (map (degree symbol.now pair) chambers.now)) }
{
    let mut begun = false;
    for chamber in chambers {
        put_next(out, begun, symbol.degree(pair, *chamber))?;
        begun = true;
    }
    Ok(())
}

/// Appends a number of a list, after a space where the list has begun.
fn put_next(out: &mut Vec<u8>, begun: bool, number: u32) -> Result<(), Memory>
    ensures { OnOk result (out.new.items ≡ out.old.items ++ next_number begun number) }
{
    if begun {
        return put_spaced(out, number);
    }
    put_number(out, number)
}

/// Appends a space and a number in decimal, at once where it has one or two digits, as most have.
#[inline(always)]
fn put_spaced(out: &mut Vec<u8>, number: u32) -> Result<(), Memory>
    ensures { OnOk result (out.new.items ≡ out.old.items ++ after_space number) }
{
    if number < 10 {
        return put_bytes(out, &[b' ', digit(number)]);
    }
    if number < 100 {
        return put_bytes(out, &[b' ', digit(number / 10), digit(number % 10)]);
    }
    out.push(b' ')?;
    put_long(out, number)
}

/// The digit of a number below 10.
fn digit(number: u32) -> u8
    requires { number < 10 }
    ensures { result ≡ 48 + number }
{
    b'0' + number as u8
}

/// Appends the number of a line in decimal, which is faster where it fits in 64 bits.
pub(crate) fn put_ordinal(out: &mut Vec<u8>, k: u128) -> Result<(), Memory>
    ensures { OnOk result (out.new.items ≡ out.old.items ++ decimal k) }
{
    let mut digits = Buffer::new();
    match u64::try_from(k) {
        Ok(short) => put_bytes(out, digits.format(short).as_bytes()),
        Err(_) => put_bytes(out, digits.format(k).as_bytes()),
    }
}

/// Appends a number in decimal, at once where it has one or two digits, as most have.
pub(crate) fn put_number(out: &mut Vec<u8>, number: u32) -> Result<(), Memory>
    ensures { OnOk result (out.new.items ≡ out.old.items ++ decimal number) }
{
    if number < 10 {
        return Ok(out.push(digit(number))?);
    }
    if number < 100 {
        return put_bytes(out, &[digit(number / 10), digit(number % 10)]);
    }
    put_long(out, number)
}

/// Appends a number of any length in decimal.
fn put_long(out: &mut Vec<u8>, number: u32) -> Result<(), Memory>
    ensures { OnOk result (out.new.items ≡ out.old.items ++ decimal number) }
{
    let mut digits = Buffer::new();
    put_bytes(out, digits.format(number).as_bytes())
}
