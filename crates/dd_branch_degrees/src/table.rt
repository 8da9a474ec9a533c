ghost use Rattle.std.specs.Prelude.{◌≡◌, ℕ, ◌*◌, ◌≤◌, IfOk, MatchOption, length};

use dd_model::{Index, Memory, Pair};
use dd_symbol::{Connected, Involutions, build_fitting, build_known};
use std::alloc::Global;
use std::marker::Model;

/// Three whole involutions of one size, connected, with s0 s2 = s2 s0. They are kept as the symbol
/// with them of which all branching values are 1.
#[derive(Drop)]
pub struct Table {
    symbol: Connected,
}

impl Model for Table {
    ghost use Rattle.dd_model.specs.Symbol.{Symbol as Tiling};

    ghost Value = { Tiling };

    ghost use Rattle.dd_branch_tables.specs.Table.{IsBareTable};

    ghost view = { λ a. a.symbol };

    ghost invariant = { λ a. IsBareTable a.symbol };
}

impl Table {
    ghost use Rattle.dd_model.specs.Symbol.{IsChamber, op};
    ghost use Rattle.dd_branch_tables.specs.Table.{AreOfTable, IsBareTable, HasNoTable, IsTableOf};
    ghost use Rattle.dd_symbol.specs.Cells.{ArePeriods};
    ghost use Rattle.dd_symbol.specs.Images.{with_degrees};

    /// The table with these numbers, which stand in the order of codes; None where they are not
    /// those of a table.
    pub fn of(alloc: Global, size: u8, numbers: &[u8]) -> Result<Option<Table>, Memory>
        requires size { (1 ≤ size) × (size ≤ 36) }
        requires whole { length numbers.now ≡ 3 * size }
        ensures { IfOk result
            (λ found. MatchOption found (HasNoTable size numbers.now)
            (λ table. IsTableOf size numbers.now table)) }
    {
        let Some(involutions) = Involutions::from_bytes(alloc, numbers, u32::from(size))? else {
            return Ok(None);
        };
        let m01 = involutions.periods(alloc, Pair::Tile)?;
        let m12 = involutions.periods(alloc, Pair::Vertex)?;
        let Some(symbol) = build_fitting(alloc, involutions, m01, m12)? else {
            return Ok(None);
        };
        Ok(Some(Table { symbol }))
    }

    /// The table with these involutions, which are known to be those of one, and with the least
    /// positive numbers of turns that fix its chambers, round tiles and round vertices. Nothing is
    /// tested.
    pub fn known(involutions: Involutions, m01: &[u8], m12: &[u8]) -> Result<Table, Memory>
        requires table { AreOfTable involutions }
        requires tiles { ArePeriods involutions Pair.Tile m01.now }
        requires vertices { ArePeriods involutions Pair.Vertex m12.now }
        ensures same { IfOk result (λ it. it ≡ with_degrees involutions m01.now m12.now) }
        ensures table { IfOk result (λ it. IsBareTable it) }
    {
        Ok(Table {
            symbol: build_known(involutions, m01, m12)?,
        })
    }

    /// The number of chambers.
    pub fn size(&self) -> u32
        ensures size { result ≡ self.now.size }
        ensures table { IsBareTable self.now }
    {
        self.symbol.symbol().size()
    }

    /// The image of a chamber under an involution.
    pub fn at(&self, i: Index, chamber: u32) -> u32
        requires { IsChamber self.now chamber }
        ensures image { result ≡ op self.now i chamber }
        ensures chamber { IsChamber self.now result }
    {
        self.symbol.symbol().op(i, chamber)
    }

    /// The symbol with these involutions and with branching values 1.
    pub fn symbol(&self) -> &Connected
        ensures same { result.now ≡ self.now }
        ensures table { IsBareTable self.now }
    {
        &self.symbol
    }

    /// Returns the same symbol, for a caller that keeps it.
    pub fn into_symbol(self) -> Connected
        ensures same { result ≡ self }
        ensures table { IsBareTable self }
    {
        self.symbol
    }
}
