ghost use Rattle.std.specs.Prelude.{◌≡◌, ◌*◌, ◌<◌, ◌≤◌, ◌++◌, IfOk, OnOk};
ghost use Rattle.dd_model.specs.Symbol.{IsChamber};
ghost use Rattle.dd_model.specs.Code.{chambers};
ghost use Rattle.dd_covers.specs.Covers.{AreSheets, IsCoverBy};
ghost use Rattle.dd_covers.specs.Sheets.{all_sheets, all_images_in, alike, sheets_of, below_sheets, degrees_of, turned};
ghost use Rattle.dd_covers.specs.Shifts.{AreBelow, shifts_by, shift};
ghost use Rattle.dd_model.specs.Small.{most_chambers};

use crate::cover::Cover;
use crate::shifts::Shifts;
use dd_model::{Index, Map, Memory, Pair};
use dd_symbol::{Connected, Symbol, build_known_lists, item};
use std::alloc::Global;

impl Shifts {
    /// The shifts of an involution.
    fn by(&self, i: Index) -> &[u32]
        ensures { result.now ≡ shifts_by self.now i }
    {
        match i {
            Index::Zero => self.x0.as_slice(),
            Index::One => self.x1.as_slice(),
            Index::Two => self.x2.as_slice(),
        }
    }
}

/// The images of the chambers of k sheets.
fn images(
    alloc: Global,
    symbol: &Symbol,
    i: Index,
    k: u32,
    shifts: &Shifts,
) -> Result<Vec<u32>, Memory>
    requires shifts { AreBelow symbol.now k shifts.now }
    requires small { k * symbol.now.size ≤ most_chambers }
    ensures { IfOk result (λ images. images.items
        ≡ all_images_in symbol.now k (shift shifts.now i) i) }
{
    let mut images = Vec::new(alloc);
    let by = shifts.by(i);
    for sheet in 0..k {
        for j in 0..symbol.size() {
            let chamber = j + 1;
            let there = (sheet + item(by, chamber)) % k;
            images.push(symbol.op(i, chamber) + there * symbol.size())?;
        }
    }
    Ok(images)
}

/// Appends the degrees of all chambers.
fn push_degrees(degrees: &mut Vec<u32>, symbol: &Symbol, pair: Pair) -> Result<(), Memory>
    ensures { OnOk result (degrees.new.items ≡ degrees.old.items ++ degrees_of symbol.now pair) }
{
    for j in 0..symbol.size() {
        degrees.push(symbol.degree(pair, j + 1))?;
    }
    Ok(())
}

/// The degrees of the chambers of k sheets.
fn degrees(alloc: Global, symbol: &Symbol, pair: Pair, k: u32) -> Result<Vec<u32>, Memory>
    ensures { IfOk result (λ degrees. degrees.items
        ≡ all_sheets k (alike (degrees_of symbol.now pair))) }
{
    let mut degrees = Vec::new(alloc);
    for _sheet in 0..k {
        push_degrees(&mut degrees, symbol, pair)?;
    }
    Ok(degrees)
}

/// Appends all chambers.
fn push_chambers(below: &mut Vec<u32>, symbol: &Symbol) -> Result<(), Memory>
    ensures { OnOk result (below.new.items ≡ below.old.items ++ chambers symbol.now) }
{
    for j in 0..symbol.size() {
        below.push(j + 1)?;
    }
    Ok(())
}

/// The chamber below each chamber of k sheets.
pub(crate) fn below(alloc: Global, symbol: &Symbol, k: u32) -> Result<Map, Memory>
    ensures { IfOk result (λ map. map ≡ below_sheets symbol.now k) }
{
    let mut below = Vec::new(alloc);
    for _sheet in 0..k {
        push_chambers(&mut below, symbol)?;
    }
    Ok(Map::from_vec(below))
}

/// Returns the chamber in the next sheet, for each chamber of k sheets.
fn turn(alloc: Global, symbol: &Symbol, k: u32) -> Result<Map, Memory>
    requires { k * symbol.now.size ≤ most_chambers }
    ensures { IfOk result (λ map. map ≡ turned symbol.now k 1) }
{
    let mut turn = Vec::new(alloc);
    for sheet in 0..k {
        let there = (sheet + 1) % k;
        for j in 0..symbol.size() {
            turn.push(j + 1 + there * symbol.size())?;
        }
    }
    Ok(Map::from_vec(turn))
}

/// The symbol of k sheets, which is known to be one.
fn sheets(alloc: Global, s: &Connected, k: u32, shifts: &Shifts) -> Result<Connected, Memory>
    requires { AreSheets s.now k shifts.now }
    ensures { IfOk result (λ cover. cover ≡ sheets_of s.now k (shift shifts.now)) }
{
    let symbol = s.symbol();
    let ops = [
        images(alloc, symbol, Index::Zero, k, shifts)?,
        images(alloc, symbol, Index::One, k, shifts)?,
        images(alloc, symbol, Index::Two, k, shifts)?,
    ];
    let m01 = degrees(alloc, symbol, Pair::Tile, k)?;
    let m12 = degrees(alloc, symbol, Pair::Vertex, k)?;
    build_known_lists(alloc, ops, m01, m12)
}

/// Returns the cover of k sheets, which are known to be a symbol.
pub(crate) fn cover(alloc: Global, s: &Connected, k: u32, shifts: &Shifts) -> Result<Cover, Memory>
    requires { AreSheets s.now k shifts.now }
    ensures { IfOk result (IsCoverBy s.now k (shift shifts.now)) }
{
    let symbol = s.symbol();
    let below = below(alloc, symbol, k)?;
    let turn = turn(alloc, symbol, k)?;
    Ok(Cover {
        symbol: sheets(alloc, s, k, shifts)?,
        below,
        turn,
    })
}
