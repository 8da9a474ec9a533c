ghost use Rattle.std.specs.Prelude.{◌≡◌, ◌≤◌, length, IfOk};
ghost use Rattle.dd_symbol.specs.Images.{AreThreeInvolutions};
ghost use Rattle.dd_model.specs.Small.{most_chambers};

use crate::involutions::Involutions;
use crate::symbol_ref::SymbolRef;
use dd_model::{Code, Memory, Pair};
use std::alloc::Global;
use std::cmp::Ordering;

/// Involutions of some chambers, followed by two lists of degrees, of which no more is known than
/// their length.
#[derive(Drop)]
pub(crate) struct CodeTable {
    pub(crate) involutions: Involutions,
    ghost some: { 1 ≤ involutions.size },
    ghost three: { AreThreeInvolutions involutions },
    ghost tiles: { length involutions.m01 ≡ involutions.size },
    ghost vertices: { length involutions.m12 ≡ involutions.size },
}

impl CodeTable {
    ghost use Rattle.dd_symbol.specs.Table.{symbol_of};
    ghost use Rattle.dd_symbol.specs.Conditions.{IsMultiple};
    ghost use Rattle.dd_model.specs.Symbol.{IsChamber, degree};
    ghost use Rattle.dd_model.specs.Cell.{IsBranching};
    ghost use Rattle.dd_model.specs.Code.{code, code_cmp};

    /// The number of chambers, at most 16,384.
    pub(crate) fn size(&self) -> u32
        ensures size { result ≡ (symbol_of self.now).size }
        ensures small { result ≤ most_chambers }
    {
        self.involutions.size()
    }

    /// Returns the same lists, for a reader of many numbers.
    pub(crate) fn lend(&self) -> SymbolRef<'_>
        ensures { result ≡ symbol_of self.now }
    {
        let rows = &self.involutions.rows;
        SymbolRef {
            numbers: rows.numbers.lend(),
            size: rows.size,
        }
    }

    /// The degree of a pair at a chamber, which for edges is 2.
    pub(crate) fn degree(&self, pair: Pair, chamber: u32) -> u32
        requires { IsChamber (symbol_of self.now) chamber }
        ensures { result ≡ degree (symbol_of self.now) pair chamber }
    {
        self.lend().degree(pair, chamber)
    }

    /// The branching value of a pair at a chamber.
    pub(crate) fn branching(&self, pair: Pair, chamber: u32) -> u32
        requires multiple { IsMultiple (symbol_of self.now) pair chamber }
        requires chamber { IsChamber (symbol_of self.now) chamber }
        ensures { IsBranching (symbol_of self.now) pair chamber result }
    {
        self.degree(pair, chamber) / self.involutions.period(pair, chamber)
    }

    /// A copy of the code.
    pub(crate) fn code(&self, alloc: Global) -> Result<Code, Memory>
        ensures { IfOk result (λ numbers. numbers ≡ code (symbol_of self.now)) }
    {
        self.involutions.code(alloc)
    }

    /// An equal table.
    pub(crate) fn try_copy(&self, alloc: Global) -> Result<CodeTable, Memory>
        ensures { IfOk result (λ table. symbol_of table ≡ symbol_of self.now) }
    {
        Ok(CodeTable {
            involutions: self.involutions.try_copy(alloc)?,
        })
    }

    /// By size, and then by code.
    pub(crate) fn cmp_code(&self, other: &CodeTable) -> Ordering
        ensures { result ≡ code_cmp (symbol_of self.now) (symbol_of other.now) }
    {
        let order = self.size().cmp(&other.size());
        if order.is_ne() {
            return order;
        }
        self.involutions.cmp_code(&other.involutions)
    }
}
