ghost use Rattle.std.specs.Prelude.{◌≢◌, OnOk, IfErr};

use crate::code_table::CodeTable;
use crate::maps::item;
use crate::refusals::Refusal;
use dd_model::Pair;
use std::alloc::Global;
use std::marker::Model;

/// The largest branching value of a symbol that is taken.
const LARGEST_BRANCHING: u32 = 30;

/// A connected table with positive degrees, and for each chamber the least one of its cell.
#[derive(Drop)]
struct CellTable<'a> {
    table: &'a CodeTable,
    tiles: &'a [u32],
    vertices: &'a [u32],
}

impl<'a> Model for CellTable<'a> {
    ghost use Rattle.dd_model.specs.Symbol.{Symbol as Tiling};
    ghost use Rattle.dd_symbol.specs.Table.{symbol_of};
    ghost use Rattle.dd_symbol.specs.Conditions.{HaveLeast};

    ghost Value = { Tiling };

    ghost view = { λ a. symbol_of a.table.now };

    ghost invariant = { λ a. HaveLeast (symbol_of a.table.now) a.tiles.now a.vertices.now };
}

impl<'a> CellTable<'a> {
    ghost use Rattle.dd_symbol.specs.Cells.{AreLeast};
    ghost use Rattle.dd_symbol.specs.Refusals.{IsFault};
    ghost use Rattle.dd_symbol.specs.Causes.{PairBefore};
    ghost use Rattle.dd_symbol.specs.Conditions.{OfBoth, AreConnected, ArePositive, AreConstant, AreMultiples, AreSmall};
    ghost use Rattle.dd_model.specs.Small.{IsSmallSymbol};

    /// For each chamber the least one of its cell of a pair that is not the edges.
    fn least(&self, pair: Pair) -> &'a [u32]
        requires { pair ≢ Pair.Edge }
        ensures least { AreLeast self.now pair result.now }
        ensures table { AreConnected self.now }
        ensures positive { OfBoth (ArePositive self.now) }
    {
        match pair {
            Pair::Tile => self.tiles,
            Pair::Vertex => self.vertices,
            Pair::Edge => unreachable!(),
        }
    }

    /// Refuses a degree that is not that of the least chamber of its cell.
    fn check_constant(&self, pair: Pair) -> Result<(), Refusal>
        requires before { PairBefore (AreConstant self.now) pair }
        ensures constant { OnOk result (AreConstant self.now pair) }
        ensures why { IfErr result (λ why. IsFault self.now why) }
    {
        let table = self.table;
        let least = self.least(pair);
        for k in 0..table.size() {
            let chamber = k + 1;
            if table.degree(pair, chamber) != table.degree(pair, item(least, chamber)) {
                return Err(Refusal::DegreeVaries { pair, chamber });
            }
        }
        Ok(())
    }

    /// Refuses a degree that is no multiple of the r of its cell, which is counted once for each
    /// cell.
    fn check_multiples(&self, pair: Pair) -> Result<(), Refusal>
        requires constant { OfBoth (AreConstant self.now) }
        requires before { PairBefore (AreMultiples self.now) pair }
        ensures multiples { OnOk result (AreMultiples self.now pair) }
        ensures why { IfErr result (λ why. IsFault self.now why) }
    {
        let table = self.table;
        let least = self.least(pair);
        for k in 0..table.size() {
            let chamber = k + 1;
            if item(least, chamber) == chamber {
                let m = table.degree(pair, chamber);
                let r = table.involutions.period(pair, chamber);
                if m % r != 0 {
                    return Err(Refusal::NotMultiple {
                        pair,
                        chamber,
                        r,
                        m,
                    });
                }
            }
        }
        Ok(())
    }

    /// Refuses a branching value over 30, which is found once for each cell.
    fn check_small(&self, pair: Pair) -> Result<(), Refusal>
        requires constant { OfBoth (AreConstant self.now) }
        requires multiples { OfBoth (AreMultiples self.now) }
        requires before { PairBefore (AreSmall self.now) pair }
        ensures small { OnOk result (AreSmall self.now pair) }
        ensures why { IfErr result (λ why. IsFault self.now why) }
    {
        let table = self.table;
        let least = self.least(pair);
        for k in 0..table.size() {
            let chamber = k + 1;
            if item(least, chamber) == chamber {
                let v = table.branching(pair, chamber);
                if v > LARGEST_BRANCHING {
                    return Err(Refusal::BranchingTooLarge { pair, chamber, v });
                }
            }
        }
        Ok(())
    }

    /// Refuses degrees that vary in a cell, are no multiple of its r, or have a branching value
    /// over 30.
    fn check(&self) -> Result<(), Refusal>
        ensures symbol { OnOk result (IsSmallSymbol self.now) }
        ensures why { IfErr result (λ why. IsFault self.now why) }
    {
        let _table = self.table;
        self.check_constant(Pair::Tile)?;
        self.check_constant(Pair::Vertex)?;
        self.check_multiples(Pair::Tile)?;
        self.check_multiples(Pair::Vertex)?;
        self.check_small(Pair::Tile)?;
        self.check_small(Pair::Vertex)
    }
}

impl CodeTable {
    ghost use Rattle.dd_symbol.specs.Table.{symbol_of};
    ghost use Rattle.dd_symbol.specs.Refusals.{IsFault};
    ghost use Rattle.dd_symbol.specs.Causes.{PairBefore};
    ghost use Rattle.dd_symbol.specs.Conditions.{AreConnected, ArePositive};
    ghost use Rattle.dd_model.specs.Small.{IsSmallSymbol};

    /// Refuses a degree of 0.
    fn check_positive(&self, pair: Pair) -> Result<(), Refusal>
        requires table { AreConnected (symbol_of self.now) }
        requires before { PairBefore (ArePositive (symbol_of self.now)) pair }
        ensures positive { OnOk result (ArePositive (symbol_of self.now) pair) }
        ensures why { IfErr result (λ why. IsFault (symbol_of self.now) why) }
    {
        for k in 0..self.size() {
            let chamber = k + 1;
            if self.degree(pair, chamber) == 0 {
                return Err(Refusal::DegreeZero { pair, chamber });
            }
        }
        Ok(())
    }

    /// Refuses degrees that are not those of a symbol with branching values of at most 30.
    pub(crate) fn check_degrees(&self, alloc: Global) -> Result<(), Refusal>
        requires table { AreConnected (symbol_of self.now) }
        ensures symbol { OnOk result (IsSmallSymbol (symbol_of self.now)) }
        ensures why { IfErr result (λ why. IsFault (symbol_of self.now) why) }
    {
        self.check_positive(Pair::Tile)?;
        self.check_positive(Pair::Vertex)?;
        let tiles = self.involutions.least_of_cells(alloc, Pair::Tile)?;
        let vertices = self.involutions.least_of_cells(alloc, Pair::Vertex)?;
        let cells = CellTable {
            table: self,
            tiles: &tiles,
            vertices: &vertices,
        };
        cells.check()
    }
}
