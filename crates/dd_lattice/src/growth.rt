ghost use Rattle.std.specs.Prelude.{◌≡◌, ℕ, ◌<◌, ◌≤◌, length, IfOk, OnOk};
ghost use Rattle.dd_model.specs.Symbol.{IsChamber};
ghost use Rattle.dd_lattice.specs.Steps.{IsReached, IsWholeTree};
ghost use Rattle.dd_lattice.specs.Growing.{IsGrowing, IsTaken, HasLooked};

use crate::crossing::Crossing;
use crate::step::Step;
use dd_model::{Index, Memory};
use dd_symbol::Symbol;
use std::alloc::Global;

/// Chambers that steps join to a first one.
#[derive(Drop)]
struct Growing {
    /// For each chamber, true if it is the first one, or a step leads to it.
    met: Vec<bool>,
    /// The steps, each from a chamber that was met before.
    steps: Vec<Step>,
}

impl Growing {
    /// Only the first chamber is met.
    fn new(alloc: Global, symbol: &Symbol, first: u32) -> Result<Growing, Memory>
        requires { IsChamber symbol.now first }
        ensures { IfOk result (λ tree. IsGrowing symbol.now first tree.met.items tree.steps.items) }
    {
        let mut met = vec![in alloc; false; symbol.size() as usize]?;
        met[first as usize - 1] = true;
        Ok(Growing {
            met,
            steps: Vec::new(alloc),
        })
    }

    /// Takes a step, where it leads to a chamber that is not met yet.
    fn take(&mut self, step: Step) -> Result<(), Memory>
        requires low { 1 ≤ step.to }
        requires high { step.to ≤ length self.old.met.items }
        ensures { OnOk result (IsTaken step self.old.met.items self.new.met.items
            self.old.steps.items self.new.steps.items) }
    {
        let place = step.to as usize - 1;
        if self.met[place] {
            return Ok(());
        }
        self.steps.push(step)?;
        self.met[place] = true;
        Ok(())
    }

    /// Takes each step from a chamber: on and back round its tile, and across its edge where that
    /// is a crossing edge.
    fn look(&mut self, crossing: &Crossing, chamber: u32) -> Result<(), Memory>
        requires chamber { IsChamber crossing.now.symbol.now chamber }
        requires whole { length self.old.met.items ≡ crossing.now.symbol.now.size }
        ensures { OnOk result ((first : ℕ)
            → IsGrowing crossing.now.symbol.now first self.old.met.items self.old.steps.items
            → IsReached first self.old.steps.items (length self.old.steps.items) chamber
            → HasLooked crossing.now.symbol.now first chamber self.new.met.items
            self.old.steps.items self.new.steps.items) }
    {
        let symbol = crossing.symbol;
        self.take(Step {
            from: chamber,
            to: symbol.op(Index::One, symbol.op(Index::Zero, chamber)),
            crosses: false,
        })?;
        self.take(Step {
            from: chamber,
            to: symbol.op(Index::Zero, symbol.op(Index::One, chamber)),
            crosses: false,
        })?;
        if crossing.has(chamber) {
            self.take(Step {
                from: chamber,
                to: symbol.op(Index::Zero, symbol.op(Index::Two, chamber)),
                crosses: true,
            })?;
        }
        Ok(())
    }
}

/// Steps from a first chamber to all that can be reached from it round tiles and across crossing
/// edges, one to each.
pub(crate) fn steps_from(
    alloc: Global,
    crossing: &Crossing,
    first: u32,
) -> Result<Vec<Step>, Memory>
    requires { IsChamber crossing.now.symbol.now first }
    ensures { IfOk result (λ steps. IsWholeTree crossing.now.symbol.now first steps.items) }
{
    let symbol = crossing.symbol;
    let mut tree = Growing::new(alloc, symbol, first)?;
    tree.look(crossing, first)?;
    for k in 0..symbol.size() as usize {
        if k < tree.steps.len() {
            let chamber = tree.steps[k].to;
            tree.look(crossing, chamber)?;
        }
    }
    Ok(tree.steps)
}
