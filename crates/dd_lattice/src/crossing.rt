ghost use Rattle.std.specs.Prelude.{◌≡◌, IfOk};
ghost use Rattle.std.specs.Bool.{OnTrue, OnFalse};
ghost use Rattle.dd_model.specs.Cell.{AreCells};
ghost use Rattle.dd_model.specs.Symbol.{IsChamber};
ghost use Rattle.dd_model.specs.Small.{IsSmallSymbol};
ghost use Rattle.dd_model.specs.declared.pair.Pair.TheVariants.{Edge};
ghost use Rattle.dd_lattice.specs.Edges.{AreKindsOf};
ghost use Rattle.dd_lattice.specs.Steps.{IsCrossingAt, AreCrossing};

use crate::kinds::EdgeKind;
use dd_model::{Memory, Pair};
use dd_symbol::Symbol;
use std::alloc::Global;

/// The crossing edges of a symbol.
#[derive(Drop)]
pub(crate) struct Crossing<'a> {
    /// The symbol.
    pub symbol: &'a Symbol,
    /// For each chamber, true if it is the least one of a crossing edge.
    flags: Vec<bool>,
    ghost small: { IsSmallSymbol symbol.now },
    ghost are_crossing: { AreCrossing symbol.now flags.items },
}

impl<'a> Crossing<'a> {
    /// Returns those of the edges that are crossing edges.
    pub(crate) fn of(
        alloc: Global,
        symbol: &'a Symbol,
        edges: &[u32],
        kinds: &[EdgeKind],
    ) -> Result<Crossing<'a>, Memory>
        requires edges { AreCells symbol.now Edge edges.now }
        requires kinds { AreKindsOf symbol.now edges.now kinds.now }
        ensures { IfOk result (λ crossing. crossing.symbol.now ≡ symbol.now) }
    {
        let mut flags = vec![in alloc; false; symbol.size() as usize]?;
        for k in 0..edges.len() {
            flags[edges[k] as usize - 1] = kinds[k].is_crossing();
        }
        Ok(Crossing { symbol, flags })
    }

    /// Returns whether the edge of a chamber is a crossing edge.
    pub(crate) fn has(&self, chamber: u32) -> bool
        requires { IsChamber self.now.symbol.now chamber }
        ensures yes { OnTrue result (IsCrossingAt self.now.symbol.now chamber) }
        ensures no { OnFalse result (IsCrossingAt self.now.symbol.now chamber → ⊥) }
    {
        let least = self.symbol.cell(Pair::Edge, chamber).least;
        self.flags[least as usize - 1]
    }
}
