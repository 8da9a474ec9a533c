ghost use Rattle.std.specs.Prelude.{IfOk};
ghost use Rattle.dd_covers.specs.PlaneValues.{IsGreatestValue};
ghost use Rattle.dd_covers.specs.Shifts.{AreBelow, AreZeros, shift};
ghost use Rattle.dd_covers.specs.TorusCover.{AreTorusShifts};

use crate::free_sides::free_sides;
use crate::growth::joins;
use crate::settled_shifts::settle;
use crate::shifts::Shifts;
use crate::visits::first_visits;
use crate::wanted_values::first_wants;
use dd_model::Memory;
use dd_symbol::{Connected, Symbol};
use std::alloc::Global;
use std::marker::Model;

/// An oriented flat symbol of at most 2,048 chambers. Its torus cover has at most 16,384.
#[derive(Drop)]
pub(crate) struct TorusBase<'a> {
    pub(crate) symbol: &'a Connected,
}

impl<'a> Model for TorusBase<'a> {
    ghost use Rattle.dd_model.specs.Symbol.{Symbol as Tiling};
    ghost use Rattle.dd_covers.specs.TorusCover.{IsTorusBase};

    ghost Value = { Tiling };

    ghost view = { λ a. a.symbol.now };

    ghost invariant = { λ a. IsTorusBase a.symbol.now };
}

/// Shifts of no sheet anywhere.
fn zeros(alloc: Global, symbol: &Symbol) -> Result<Shifts, Memory>
    ensures { IfOk result (λ shifts. AreZeros symbol.now shifts) }
{
    let size = symbol.size() as usize;
    Ok(Shifts {
        x0: vec![in alloc; 0u32; size]?,
        x1: vec![in alloc; 0u32; size]?,
        x2: vec![in alloc; 0u32; size]?,
    })
}

/// The shifts of the torus cover, of which there are one list. The sides by which no cell is joined
/// have none; those by which one is get what its cell wants, from the last one back.
pub(crate) fn torus_shifts(alloc: Global, base: &TorusBase<'_>, k: u32) -> Result<Shifts, Memory>
    requires { IsGreatestValue base.now k }
    ensures below { IfOk result (λ shifts. AreBelow base.now k shifts) }
    ensures rules { IfOk result (λ shifts. AreTorusShifts base.now k (shift shifts)) }
{
    let s = base.symbol;
    let symbol = s.symbol();
    let visits = first_visits(alloc, s)?;
    let numbers = visits.number.as_slice();
    let white = visits.white.as_slice();
    let sides = free_sides(alloc, symbol, numbers)?;
    let mut joins = joins(alloc, s, numbers, sides.as_slice())?;
    let mut wants = first_wants(alloc, s, k)?;
    let mut shifts = zeros(alloc, symbol)?;
    while let Some(join) = joins.pop() {
        settle(&mut shifts, &mut wants, symbol, white, k, &join);
    }
    Ok(shifts)
}
