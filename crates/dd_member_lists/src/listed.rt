ghost use Rattle.std.specs.Prelude.{◌≡◌, ◌↔◌, ◌<◌, ◌*◌, IsTrue, length, slice_index};
ghost use Rattle.dd_model.specs.Code.{code};
ghost use Rattle.dd_model.specs.Lists.{IsSmallerWhereTheyDiffer};
ghost use Rattle.dd_model.specs.Small.{IsSmallSymbol};
ghost use Rattle.dd_symbol.specs.Images.{with_degrees};

use dd_symbol::Connected;

/// A symbol of a list: a table, which has its involutions and any degrees, and its own degrees of
/// the tiles and the vertices.
#[derive(Drop)]
pub struct Listed<'a> {
    pub table: &'a Connected,
    pub m01: &'a [u8],
    pub m12: &'a [u8],
}

impl<'a> Listed<'a> {
    /// The number at a place of the code.
    fn number_at(&self, place: usize) -> u32
        requires small { IsSmallSymbol (with_degrees self.now.table.now self.now.m01.now
            self.now.m12.now) }
        requires place { place < 5 * self.now.table.now.size }
        ensures { result ≡ slice_index (code (with_degrees self.now.table.now self.now.m01.now
            self.now.m12.now)) place }
    {
        let symbol = self.table.symbol();
        let size = symbol.size() as usize;
        if place < 3 * size {
            return symbol.images((place / 3) as u32 + 1)[place % 3];
        }
        if place < 4 * size {
            return u32::from(self.m01[place - 3 * size]);
        }
        u32::from(self.m12[place - 4 * size])
    }

    /// Returns whether the code is smaller at the first place that it shares with a list and where
    /// they differ.
    pub(crate) fn is_smaller_where_they_differ(&self, others: &[u8]) -> bool
        requires { IsSmallSymbol (with_degrees self.now.table.now self.now.m01.now
            self.now.m12.now) }
        ensures { IsTrue result ↔ IsSmallerWhereTheyDiffer (code (with_degrees self.now.table.now
            self.now.m01.now self.now.m12.now)) others.now }
    {
        let shared = others.len().min(5 * self.table.symbol().size() as usize);
        for k in 0..shared {
            let own = self.number_at(k);
            let other = u32::from(others[k]);
            if own != other {
                return own < other;
            }
        }
        false
    }
}
