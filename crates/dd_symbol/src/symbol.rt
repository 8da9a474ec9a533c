ghost use Rattle.std.specs.Prelude.{◌≡◌, ◌≤◌, ◌<◌, ◌↔◌, IfOk, IsTrue};
ghost use Rattle.dd_model.specs.Isomorphic.{IsBijection, IsIsomorphism};
ghost use Rattle.dd_model.specs.Code.{code_cmp};

use crate::code_table::CodeTable;
use crate::involutions::Involutions;
use crate::maps::inverse;
use crate::shapes::CellShape;
use crate::symbol_ref::SymbolRef;
use dd_model::{Code, Index, Memory, Pair, Position};
use std::alloc::Global;
use std::cmp::Ordering;
use std::marker::Model;

/// How many chambers a symbol has at most.
pub const MOST_CHAMBERS: u32 = 16_384;

/// A symbol of at most `MOST_CHAMBERS` chambers with branching values of at most 30.
#[derive(Drop)]
pub struct Symbol {
    table: CodeTable,
}

impl Model for Symbol {
    ghost use Rattle.dd_model.specs.Symbol.{Symbol as Tiling};

    ghost Value = { Tiling };

    ghost use Rattle.dd_symbol.specs.Table.{symbol_of};
    ghost use Rattle.dd_model.specs.Small.{IsSmallSymbol};

    ghost view = { λ a. symbol_of a.table };

    ghost invariant = { λ a. IsSmallSymbol (symbol_of a.table) };
}

impl Symbol {
    ghost use Rattle.dd_model.specs.Symbol.{IsChamber, op, degree};
    ghost use Rattle.dd_model.specs.Cell.{IsBranching, IsLeastOfCell, AreCells};
    ghost use Rattle.dd_model.specs.Code.{code, images};
    ghost use Rattle.dd_model.specs.Involutions.{HaveSameInvolutions};
    ghost use Rattle.dd_model.specs.Position.{IsBefore};
    ghost use Rattle.dd_symbol.specs.Table.{symbol_of};
    ghost use Rattle.dd_symbol.specs.Images.{with_degrees};
    ghost use Rattle.dd_symbol.specs.Cells.{IsShapeOf};
    ghost use Rattle.dd_model.specs.Small.{IsSmallSymbol, most_chambers};

    /// The symbol of a table.
    pub(crate) fn from_table(table: CodeTable) -> Self
        requires { IsSmallSymbol (symbol_of table) }
        ensures { result ≡ symbol_of table }
    {
        Symbol { table }
    }

    /// The number of chambers, at most 16,384.
    pub fn size(&self) -> u32
        ensures size { result ≡ self.now.size }
        ensures small { result ≤ most_chambers }
        ensures symbol { IsSmallSymbol self.now }
    {
        self.table.size()
    }

    /// Returns the same symbol, for a reader of many of its numbers.
    pub(crate) fn lend(&self) -> SymbolRef<'_>
        ensures { result ≡ self.now }
    {
        self.table.lend()
    }

    /// The three involutions.
    pub fn involutions(&self) -> &Involutions
        ensures { result.now ≡ self.now }
    {
        &self.table.involutions
    }

    /// The image of a chamber under an involution.
    pub fn op(&self, i: Index, chamber: u32) -> u32
        requires { IsChamber self.now chamber }
        ensures image { result ≡ op self.now i chamber }
        ensures chamber { IsChamber self.now result }
    {
        self.table.involutions.op(i, chamber)
    }

    /// The images of a chamber under s0, s1 and s2.
    pub fn images(&self, chamber: u32) -> [u32; 3]
        requires { IsChamber self.now chamber }
        ensures { result ≡ images self.now chamber }
    {
        self.lend().images(chamber)
    }

    /// The degree of the tile at a chamber.
    pub fn m01(&self, chamber: u32) -> u32
        requires { IsChamber self.now chamber }
        ensures { result ≡ degree self.now Pair.Tile chamber }
    {
        self.table.degree(Pair::Tile, chamber)
    }

    /// The degree of the vertex at a chamber.
    pub fn m12(&self, chamber: u32) -> u32
        requires { IsChamber self.now chamber }
        ensures { result ≡ degree self.now Pair.Vertex chamber }
    {
        self.table.degree(Pair::Vertex, chamber)
    }

    /// The degree of a pair at a chamber, which for edges is 2.
    pub fn degree(&self, pair: Pair, chamber: u32) -> u32
        requires { IsChamber self.now chamber }
        ensures { result ≡ degree self.now pair chamber }
    {
        self.table.degree(pair, chamber)
    }

    /// The branching value of a pair at a chamber: the degree divided by the least number of turns.
    pub fn branching(&self, pair: Pair, chamber: u32) -> u32
        requires { IsChamber self.now chamber }
        ensures { IsBranching self.now pair chamber result }
    {
        self.table.branching(pair, chamber)
    }

    /// The cell of a chamber: its least chamber, its kind and its r.
    pub fn cell(&self, pair: Pair, chamber: u32) -> CellShape
        requires { IsChamber self.now chamber }
        ensures { IsShapeOf self.now pair chamber result }
    {
        self.table.involutions.cell(pair, chamber)
    }

    /// Returns whether a chamber is the least of its cell. The walk through the cell ends at the
    /// first chamber that is smaller. It takes no memory.
    pub fn is_least_of_cell(&self, pair: Pair, chamber: u32) -> bool
        requires { IsChamber self.now chamber }
        ensures { IsTrue result ↔ IsLeastOfCell self.now pair chamber }
    {
        let mut place = chamber;
        for _turn in 0..self.size() {
            let neighbor = self.op(pair.first(), place);
            if neighbor < chamber {
                return false;
            }
            place = self.op(pair.second(), neighbor);
            if place < chamber {
                return false;
            }
            if place == chamber {
                return true;
            }
        }
        unreachable!()
    }

    /// The least chambers of the cells of a pair, ascending: one for each cell.
    pub fn least_chambers(&self, alloc: Global, pair: Pair) -> Result<Vec<u32>, Memory>
        ensures { IfOk result (λ chambers. AreCells self.now pair chambers.items) }
    {
        self.table.involutions.least_chambers(alloc, pair)
    }

    /// A copy of the code.
    pub fn code(&self, alloc: Global) -> Result<Code, Memory>
        ensures { IfOk result (λ numbers. numbers ≡ code self.now) }
    {
        self.table.code(alloc)
    }

    /// Returns whether the symbol is before a position.
    pub fn is_before(&self, position: &Position) -> bool
        ensures { IsTrue result ↔ IsBefore position.now self.now }
    {
        self.table.is_before(position)
    }

    /// Returns whether another symbol has as many chambers and the same three involutions.
    pub fn has_involutions_of(&self, other: &Symbol) -> bool
        ensures { IsTrue result ↔ HaveSameInvolutions other.now self.now }
    {
        self.table.involutions.is_same(&other.table.involutions)
    }

    /// The symbol with these involutions and other degrees, which are known to be those of a
    /// symbol.
    pub(crate) fn with_known_degrees(
        &self,
        alloc: Global,
        m01: &[u8],
        m12: &[u8],
    ) -> Result<Symbol, Memory>
        requires { IsSmallSymbol (with_degrees self.now m01.now m12.now) }
        ensures { IfOk result (λ it. it ≡ with_degrees self.now m01.now m12.now) }
    {
        let involutions = self.table.involutions.copy_with(alloc, m01, m12)?;
        Ok(Symbol {
            table: CodeTable { involutions },
        })
    }

    /// An equal symbol.
    pub(crate) fn try_copy(&self, alloc: Global) -> Result<Symbol, Memory>
        ensures { IfOk result (λ copy. copy ≡ self.now) }
    {
        Ok(Symbol {
            table: self.table.try_copy(alloc)?,
        })
    }

    /// Chamber D becomes chamber map(D).
    pub fn renumber(&self, alloc: Global, map: &[u32]) -> Result<Symbol, Memory>
        requires { IsBijection self.now.size map.now }
        ensures isomorphism { IfOk result (λ other. IsIsomorphism self.now other map.now) }
        ensures symbol { IfOk result (λ other. IsSmallSymbol other) }
    {
        let table = &self.table;
        match inverse(alloc, map)? {
            Some(back) => Ok(Symbol {
                table: table.renumbered(alloc, map, &back)?,
            }),
            None => unreachable!(),
        }
    }
}

/// By size, and then by code.
pub fn cmp_code(a: &Symbol, b: &Symbol) -> Ordering
    ensures { result ≡ code_cmp a.now b.now }
{
    a.table.cmp_code(&b.table)
}
