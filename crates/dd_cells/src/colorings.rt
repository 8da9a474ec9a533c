ghost use Rattle.std.specs.Prelude.{◌≡◌, ◌≢◌, ◌↔◌, ℕ, IsTrue, OnOk, IfOk, length};
ghost use Rattle.dd_model.specs.Symbol.{IsChamber, AreInvolutions, op};
ghost use Rattle.dd_model.specs.declared.index.Index.{Index};
ghost use Rattle.dd_cells.specs.Orientation.{IsOrientation, AreWeakColors};
ghost use Rattle.dd_cells.specs.Coloring.{AreForced, ExchangesBy, IsFreeOf};

use crate::orientations::Orientation;
use dd_model::{Index, Memory};
use dd_symbol::{Connected, Symbol};
use std::alloc::Global;

/// Two colors, as they are carried from chamber 1 to its neighbors and on.
#[derive(Drop)]
struct Coloring {
    /// For each chamber, true if it is met.
    seen: Vec<bool>,
    /// For each chamber that is met, true if its color is not that of chamber 1.
    colors: Vec<bool>,
    /// The chambers met, in order.
    queue: Vec<u32>,
}

impl Coloring {
    ghost use Rattle.dd_model.specs.Connected.{IsReached};
    ghost use Rattle.dd_symbol.specs.Walk.{IsMarked, Grows};
    ghost use Rattle.dd_cells.specs.Coloring.{IsColoring, IsForced};

    /// Only chamber 1 is met.
    fn new(alloc: Global, symbol: &Symbol) -> Result<Coloring, Memory>
        ensures coloring { IfOk result (λ coloring. IsColoring symbol.now coloring) }
        ensures first { IfOk result (λ coloring. IsMarked coloring.seen.items 1) }
    {
        let size = symbol.size() as usize;
        let mut seen = vec![in alloc; false; size]?;
        let colors = vec![in alloc; false; size]?;
        let mut queue = Vec::with_capacity(alloc, size)?;
        queue.push(1)?;
        seen[0] = true;
        Ok(Coloring {
            seen,
            colors,
            queue,
        })
    }

    /// Meets a chamber, which has this color if it is new.
    fn meet(&mut self, symbol: &Symbol, chamber: u32, color: bool) -> Result<(), Memory>
        requires coloring { IsColoring symbol.now self.old }
        requires chamber { IsChamber symbol.now chamber }
        requires reached { IsReached symbol.now chamber }
        requires forced { IsForced symbol.now chamber color }
        ensures coloring { OnOk result (IsColoring symbol.now self.new) }
        ensures grows { OnOk result (Grows self.old.seen.items self.old.queue.items
            self.new.seen.items self.new.queue.items) }
        ensures marked { OnOk result (IsMarked self.new.seen.items chamber) }
    {
        let place = chamber as usize - 1;
        if !self.seen[place] {
            self.queue.push(chamber)?;
            self.seen[place] = true;
            self.colors[place] = color;
        }
        Ok(())
    }

    /// Meets the image of a chamber that is met.
    fn spread(&mut self, symbol: &Symbol, i: Index, chamber: u32) -> Result<(), Memory>
        requires coloring { IsColoring symbol.now self.old }
        requires chamber { IsChamber symbol.now chamber }
        requires marked { IsMarked self.old.seen.items chamber }
        ensures coloring { OnOk result (IsColoring symbol.now self.new) }
        ensures grows { OnOk result (Grows self.old.seen.items self.old.queue.items
            self.new.seen.items self.new.queue.items) }
        ensures marked { OnOk result (IsMarked self.new.seen.items (op symbol.now i chamber)) }
    {
        let neighbor = symbol.op(i, chamber);
        if neighbor == chamber {
            return Ok(());
        }
        let color = !self.colors[chamber as usize - 1];
        self.meet(symbol, neighbor, color)
    }

    /// Meets the three images of a chamber that is met.
    fn visit(&mut self, symbol: &Symbol, chamber: u32) -> Result<(), Memory>
        requires coloring { IsColoring symbol.now self.old }
        requires chamber { IsChamber symbol.now chamber }
        requires marked { IsMarked self.old.seen.items chamber }
        ensures coloring { OnOk result (IsColoring symbol.now self.new) }
        ensures grows { OnOk result (Grows self.old.seen.items self.old.queue.items
            self.new.seen.items self.new.queue.items) }
        ensures zero { OnOk result (IsMarked self.new.seen.items
            (op symbol.now Index.Zero chamber)) }
        ensures one { OnOk result (IsMarked self.new.seen.items (op symbol.now Index.One chamber)) }
        ensures two { OnOk result (IsMarked self.new.seen.items (op symbol.now Index.Two chamber)) }
    {
        self.spread(symbol, Index::Zero, chamber)?;
        self.spread(symbol, Index::One, chamber)?;
        self.spread(symbol, Index::Two, chamber)
    }
}

/// The only coloring that may serve, up to the exchange of the two colors.
fn forced_colors(alloc: Global, s: &Connected) -> Result<Vec<bool>, Memory>
    ensures { IfOk result (λ colors. AreForced s.now colors.items) }
{
    let symbol = s.symbol();
    let mut coloring = Coloring::new(alloc, symbol)?;
    let mut at = 0;
    while at < coloring.queue.len() {
        let chamber = coloring.queue[at];
        at += 1;
        coloring.visit(symbol, chamber)?;
    }
    Ok(coloring.colors)
}

/// Returns whether an involution exchanges the colors of the chambers that it moves.
fn exchanges_by(symbol: &Symbol, i: Index, colors: &[bool]) -> bool
    requires { length colors.now ≡ symbol.now.size }
    ensures { IsTrue result ↔ ExchangesBy symbol.now i colors.now }
{
    for k in 0..symbol.size() {
        let chamber = k + 1;
        let image = symbol.op(i, chamber);
        if image != chamber && colors[image as usize - 1] == colors[k as usize] {
            return false;
        }
    }
    true
}

/// Returns whether each involution exchanges the colors of the chambers that it moves.
fn exchange(symbol: &Symbol, colors: &[bool]) -> bool
    requires { length colors.now ≡ symbol.now.size }
    ensures { IsTrue result ↔ AreWeakColors symbol.now colors.now }
{
    exchanges_by(symbol, Index::Zero, colors)
        && exchanges_by(symbol, Index::One, colors)
        && exchanges_by(symbol, Index::Two, colors)
}

/// Returns whether an involution fixes no chamber.
fn is_free_of(symbol: &Symbol, i: Index) -> bool
    ensures { IsTrue result ↔ IsFreeOf symbol.now i }
{
    for k in 0..symbol.size() {
        if symbol.op(i, k + 1) == k + 1 {
            return false;
        }
    }
    true
}

/// Returns whether no involution fixes a chamber.
fn is_free(symbol: &Symbol) -> bool
    ensures { IsTrue result ↔ ((i : Index) → IsFreeOf symbol.now i) }
{
    Index::ALL.iter().all(|i| is_free_of(symbol, *i))
}

/// The orientation of a symbol. Its surface is orientable where the answer is not `None`.
pub fn orientation(alloc: Global, s: &Connected) -> Result<Orientation, Memory>
    ensures { IfOk result (λ orientation. IsOrientation s.now orientation) }
{
    let symbol = s.symbol();
    let colors = forced_colors(alloc, s)?;
    if !exchange(symbol, &colors) {
        return Ok(Orientation::None);
    }
    if is_free(symbol) {
        return Ok(Orientation::Oriented);
    }
    Ok(Orientation::Weak)
}
