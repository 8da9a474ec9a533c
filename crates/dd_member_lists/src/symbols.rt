ghost use Rattle.std.specs.Prelude.{◌≡◌, ◌↔◌, ◌<◌, ◌≤◌, length, take, drop, slice_index_or, IsTrue, IfOk};
ghost use Rattle.dd_model.specs.Symbol.{Symbol as Tiling};
ghost use Rattle.dd_model.specs.Position.{IsBefore};

use crate::alike::Alike;
use crate::listed::Listed;
use crate::series::{end_before, next_after};
use crate::symbol_list::SymbolList;
use dd_model::{Memory, Position};
use dd_symbol::Connected;
use std::alloc::Global;
use std::marker::Model;

/// Symbols of a list that follow each other.
#[derive(Drop)]
pub struct Symbols<'a> {
    pub(crate) list: &'a SymbolList,
    pub(crate) start: usize,
    pub(crate) end: usize,
}

impl<'a> Model for Symbols<'a> {
    ghost use Rattle.std.specs.Prelude.{◌-◌, ◌*◌, ◌≤◌, List, take, drop, length};
    ghost use Rattle.dd_model.specs.Symbol.{Symbol as Tiling};

    ghost Value = { List Tiling };

    ghost view = { λ a. take (a.end - a.start) (drop a.start a.list.now) };

    ghost invariant = { λ a. (a.start ≤ a.end) × (a.end ≤ length a.list.now) };
}

impl<'a> Symbols<'a> {
    /// How many symbols there are.
    pub fn len(&self) -> usize
        ensures { result ≡ length self.now }
    {
        self.end - self.start
    }

    /// Returns the first `count` symbols, and the others.
    pub fn split_at(&self, count: usize) -> (Symbols<'a>, Symbols<'a>)
        requires { count ≤ length self.now }
        ensures first { result.0 ≡ take count self.now }
        ensures others { result.1 ≡ drop count self.now }
    {
        let middle = self.start + count;
        (
            self.list.range(self.start, middle),
            self.list.range(middle, self.end),
        )
    }

    /// The symbols from a place on, counted from 0, for which the list has one table.
    pub fn alike_from(&self, place: usize) -> Alike<'a>
        requires { place < length self.now }
        ensures some { 1 ≤ length result }
        ensures symbols { result ≡ take (length result) (drop place self.now) }
    {
        let list = self.list;
        let first = self.start + place;
        let next = next_after(&list.series, first);
        let series = &list.series[next - 1];
        Alike {
            table: &series.table,
            degrees: series.degrees_from(&list.degrees, first),
            count: end_before(&list.series, next, self.end) - first,
        }
    }

    /// A copy of the symbol at a place.
    pub fn copy(&self, alloc: Global, place: usize) -> Result<Connected, Memory>
        requires { place < length self.now }
        ensures { IfOk result (λ symbol. symbol ≡ slice_index_or self.now place symbol) }
    {
        let Listed { table, m01, m12 } = self.alike_from(place).get(0);
        table.with_known_degrees(alloc, m01, m12)
    }

    /// Returns whether the symbol at a place is before a position.
    pub fn is_before(&self, place: usize, at: &Position) -> bool
        requires { place < length self.now }
        ensures { (s : Tiling) → s ≡ slice_index_or self.now place s
            → IsTrue result ↔ IsBefore at.now s }
    {
        let Position::At(first) = at else {
            return true;
        };
        let symbol = self.alike_from(place).get(0);
        let size = symbol.table.symbol().size();
        size < first.size
            || size == first.size && symbol.is_smaller_where_they_differ(first.prefix.as_slice())
    }
}
