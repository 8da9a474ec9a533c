ghost use Rattle.std.specs.Prelude.{◌≡◌, ◌↔◌, ◌++◌, ◌∷◌, [], ◌-◌, ◌≤◌, length, take, drop, slice_index_or, IsTrue, OnOk, OnErr};
ghost use Rattle.dd_model.specs.Symbol.{Symbol as Tiling};
ghost use Rattle.dd_model.specs.Connected.{Connected as AllReached};
ghost use Rattle.dd_model.specs.Small.{IsSmallSymbol};
ghost use Rattle.dd_member_lists.specs.Lists.{HasBegun, IsLast, with_told};

use crate::series::Series;
use crate::symbols::Symbols;
use dd_model::Memory;
use dd_symbol::{Connected, Symbol};
use std::alloc::Global;
use std::marker::Model;

/// Connected symbols in order, with degrees of at most 255. Symbols that follow each other and have
/// the same involutions share one table. The list keeps only the degrees of each, two bytes a
/// chamber.
#[derive(Drop)]
pub struct SymbolList {
    pub(crate) series: Vec<Series>,
    pub(crate) degrees: Vec<u8>,
    pub(crate) count: usize,
}

impl Model for SymbolList {
    ghost use Rattle.std.specs.Prelude.{List};
    ghost use Rattle.dd_model.specs.Symbol.{Symbol as Tiling};
    ghost use Rattle.dd_member_lists.specs.Lists.{listed, AreListed};

    ghost Value = { List Tiling };

    ghost view = { λ a. listed a.series.items a.degrees.items a.count };

    ghost invariant = { λ a. AreListed a.series.items a.degrees.items a.count };
}

/// Returns whether the last series has the involutions of a symbol.
fn has_last(series: &[Series], symbol: &Symbol) -> bool
    ensures { IsTrue result ↔ IsLast symbol.now series.now }
{
    match series.last() {
        Some(last) => last.table.symbol().has_involutions_of(symbol),
        None => false,
    }
}

/// Begins a series if the last one has other involutions than a table. The series notes how many
/// symbols, and how many bytes of degrees, are before it.
fn begin(
    series: &mut Vec<Series>,
    table: &Connected,
    first: usize,
    degrees: usize,
) -> Result<(), Memory>
    ensures begun { OnOk result
        (HasBegun table.now first degrees series.old.items series.new.items) }
    ensures same { OnErr result (series.new.items ≡ series.old.items) }
    ensures connected { AllReached table.now }
{
    if has_last(series, table.symbol()) {
        return Ok(());
    }
    let table = table.try_copy(*series.allocator())?;
    series.push(Series {
        table,
        first,
        degrees,
    })?;
    Ok(())
}

impl SymbolList {
    /// No symbols. Nothing is allocated.
    pub fn new(alloc: Global) -> SymbolList
        ensures { result ≡ [] }
    {
        SymbolList {
            series: Vec::new(alloc),
            degrees: Vec::new(alloc),
            count: 0,
        }
    }

    /// The allocator.
    pub fn allocator(&self) -> &Global {
        self.degrees.allocator()
    }

    /// How many symbols there are.
    pub fn len(&self) -> usize
        ensures { result ≡ length self.now }
    {
        self.count
    }

    /// Appends the symbol with the involutions of a table and these degrees, those of the tiles at
    /// the chambers 1 to n and then those of the vertices. They are known to be those of a symbol.
    /// At `Err` the list is as before.
    pub fn push(&mut self, table: &Connected, degrees: &[u8]) -> Result<(), Memory>
        requires { IsSmallSymbol (with_told table.now degrees.now) }
        ensures list { OnOk result
            (self.new ≡ self.old ++ with_told table.now degrees.now ∷ []) }
        ensures same { OnErr result (self.new ≡ self.old) }
    {
        self.degrees.reserve(degrees.len())?;
        begin(&mut self.series, table, self.count, self.degrees.len())?;
        self.degrees.extend_from_slice(degrees)?;
        self.count += 1;
        Ok(())
    }

    /// Appends the symbol with the involutions of the last one and these degrees, as `push` has
    /// them. It compares no tables. At `Err` the list is as before.
    pub fn push_alike(&mut self, degrees: &[u8]) -> Result<(), Memory>
        requires some { 1 ≤ length self.old }
        requires small { (s : Tiling) → s ≡ slice_index_or self.old (length self.old - 1) s
            → IsSmallSymbol (with_told s degrees.now) }
        ensures list { OnOk result ((s : Tiling)
            → s ≡ slice_index_or self.old (length self.old - 1) s
            → self.new ≡ self.old ++ with_told s degrees.now ∷ []) }
        ensures same { OnErr result (self.new ≡ self.old) }
    {
        self.degrees.extend_from_slice(degrees)?;
        self.count += 1;
        Ok(())
    }

    /// All symbols.
    pub fn all(&self) -> Symbols<'_>
        ensures { result ≡ self.now }
    {
        Symbols {
            list: self,
            start: 0,
            end: self.len(),
        }
    }

    /// The symbols from one place up to another one, places being counted from 0.
    pub fn range(&self, start: usize, end: usize) -> Symbols<'_>
        requires start { start ≤ end }
        requires end { end ≤ length self.now }
        ensures { result ≡ take (end - start) (drop start self.now) }
    {
        Symbols {
            list: self,
            start,
            end,
        }
    }
}
