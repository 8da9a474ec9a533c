ghost use Rattle.std.specs.Prelude.{◌≡◌, ◌<◌, length, slice_index_or};
ghost use Rattle.std.specs.List.{All};
ghost use Rattle.dd_model.specs.Small.{IsSmallSymbol};
ghost use Rattle.dd_model.specs.Connected.{Connected as AllReached};
ghost use Rattle.dd_model.specs.Involutions.{HaveSameInvolutions};
ghost use Rattle.dd_symbol.specs.Images.{with_degrees};

use crate::listed::Listed;
use dd_symbol::Connected;
use std::marker::Model;

/// Symbols of a list that follow each other and have one table.
#[derive(Drop)]
pub struct Alike<'a> {
    pub(crate) table: &'a Connected,
    /// For each symbol, the degrees of its tiles at the chambers 1 to n, and then those of its
    /// vertices.
    pub(crate) degrees: &'a [u8],
    pub(crate) count: usize,
}

impl<'a> Model for Alike<'a> {
    ghost use Rattle.std.specs.Prelude.{List};
    ghost use Rattle.dd_model.specs.Symbol.{Symbol as Tiling};
    ghost use Rattle.dd_member_lists.specs.Lists.{alike, AreAlike};

    ghost Value = { List Tiling };

    ghost view = { λ a. alike a.table.now a.degrees.now a.count };

    ghost invariant = { λ a. AreAlike a.table.now a.degrees.now a.count };
}

impl<'a> Alike<'a> {
    /// How many symbols there are.
    pub fn len(&self) -> usize
        ensures { result ≡ length self.now }
    {
        self.count
    }

    /// Their table.
    pub fn table(&self) -> &'a Connected
        ensures { All (HaveSameInvolutions result.now) self.now }
    {
        self.table
    }

    /// The table and the degrees of the symbol at a place, counted from 0.
    pub fn get(&self, place: usize) -> Listed<'a>
        requires { place < length self.now }
        ensures symbol { with_degrees result.table.now result.m01.now result.m12.now
            ≡ slice_index_or self.now place (with_degrees result.table.now result.m01.now
            result.m12.now) }
        ensures small { IsSmallSymbol (with_degrees result.table.now result.m01.now
            result.m12.now) }
        ensures connected { AllReached (with_degrees result.table.now result.m01.now
            result.m12.now) }
    {
        let size = self.table.symbol().size() as usize;
        let (_, own) = self.degrees.split_at(2 * size * place);
        let (m01, later) = own.split_at(size);
        let (m12, _) = later.split_at(size);
        Listed {
            table: self.table,
            m01,
            m12,
        }
    }
}
