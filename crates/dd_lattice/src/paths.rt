ghost use Rattle.std.specs.Prelude.{◌≡◌, ℕ, ◌<◌, ◌≤◌, length, IfOk, pos};
ghost use Rattle.dd_model.specs.Symbol.{IsChamber};
ghost use Rattle.dd_covers.specs.Torus.{IsTorus};
ghost use Rattle.dd_lattice.specs.Shifts.{IsLeftEdge, AreShifts};
ghost use Rattle.dd_lattice.specs.Paths.{IsBack, mark, shift_by};

use crate::crossing::Crossing;
use crate::growth::steps_from;
use crate::step::Step;
use dd_model::{Index, Memory};
use dd_symbol::Symbol;
use std::alloc::Global;

/// Goes a step back where it led to the place of a path, and answers the new place. Where it
/// crossed an edge, the path leaves the tile across this.
fn back(exits: &mut Vec<bool>, place: u32, step: Step) -> u32
    requires low { 1 ≤ place }
    requires high { place ≤ length exits.old.items }
    ensures { IsBack step place result exits.old.items exits.new.items }
{
    if step.to != place {
        return place;
    }
    if step.crosses {
        exits[place as usize - 1] = true;
    }
    step.from
}

/// A closed path over the tiles of a torus.
#[derive(Drop)]
pub(crate) struct Path {
    /// For each chamber, true if the path leaves its tile across its edge.
    pub exits: Vec<bool>,
}

impl Path {
    /// The path that crosses the edge of a first chamber, which is left, and comes back across
    /// crossing edges. Its crossings are one coordinate of the shifts.
    pub(crate) fn closed(alloc: Global, crossing: &Crossing, first: u32) -> Result<Path, Memory>
        requires torus { IsTorus crossing.now.symbol.now }
        requires left { IsLeftEdge crossing.now.symbol.now first }
        ensures shifts { IfOk result (λ path. AreShifts crossing.now.symbol.now first
            (shift_by crossing.now.symbol.now path.exits.items)) }
        ensures whole { IfOk result (λ path.
            length path.exits.items ≡ crossing.now.symbol.now.size) }
    {
        let symbol = crossing.symbol;
        let steps = steps_from(alloc, crossing, first)?;
        let mut exits = vec![in alloc; false; symbol.size() as usize]?;
        exits[first as usize - 1] = true;
        let mut place = symbol.op(Index::Zero, symbol.op(Index::Two, first));
        for k in 0..steps.len() {
            place = back(&mut exits, place, steps[steps.len() - 1 - k]);
        }
        Ok(Path { exits })
    }

    /// 1 where the path leaves the tile of a chamber across its edge.
    fn mark(&self, chamber: u32) -> i64
        requires low { 1 ≤ chamber }
        requires high { chamber ≤ length self.now.exits.items }
        ensures { result ≡ pos (mark self.now.exits.items chamber) }
    {
        if self.exits[chamber as usize - 1] {
            1
        } else {
            0
        }
    }

    /// The shift of the edge of a chamber, away from the chamber's vertex.
    pub(crate) fn shift(&self, symbol: &Symbol, chamber: u32) -> i64
        requires chamber { IsChamber symbol.now chamber }
        requires whole { length self.now.exits.items ≡ symbol.now.size }
        ensures { result ≡ shift_by symbol.now self.now.exits.items chamber }
    {
        let beyond = symbol.op(Index::Two, chamber);
        let out = self.mark(chamber) + self.mark(beyond);
        let inward = self.mark(symbol.op(Index::Zero, chamber))
            + self.mark(symbol.op(Index::Zero, beyond));
        out - inward
    }
}
