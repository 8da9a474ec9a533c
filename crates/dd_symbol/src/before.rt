ghost use Rattle.std.specs.Prelude.{◌↔◌, IsTrue};
ghost use Rattle.dd_model.specs.Code.{code};
ghost use Rattle.dd_model.specs.Lists.{IsSmallerWhereTheyDiffer};

use crate::code_table::CodeTable;
use dd_model::Position;

impl CodeTable {
    ghost use Rattle.dd_symbol.specs.Table.{symbol_of};
    ghost use Rattle.dd_model.specs.Position.{IsBefore};

    /// Returns whether the code is smaller at the first place that it shares with a list and where
    /// they differ.
    fn is_smaller_where_they_differ(&self, others: &[u8]) -> bool
        ensures { IsTrue result ↔ IsSmallerWhereTheyDiffer (code (symbol_of self.now)) others.now }
    {
        let shared = others.len().min(5 * self.size() as usize);
        for k in 0..shared {
            let own = self.involutions.number_at(k);
            let other = u32::from(others[k]);
            if own != other {
                return own < other;
            }
        }
        false
    }

    /// Returns whether the symbol of the lists is before a position.
    pub(crate) fn is_before(&self, position: &Position) -> bool
        ensures { IsTrue result ↔ IsBefore position.now (symbol_of self.now) }
    {
        match position {
            Position::At(place) => {
                self.size() < place.size
                    || self.size() == place.size
                        && self.is_smaller_where_they_differ(place.prefix.as_slice())
            }
            Position::End => true,
        }
    }
}
