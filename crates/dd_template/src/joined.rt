ghost use Rattle.std.specs.Prelude.{◌≡◌, ℕ, ◌<◌, ◌≤◌, ◌↔◌, IsTrue, MatchOption, length};

use crate::part_number::PartNumber;
use crate::tables::Template;
use crate::undone::Undone;
use dd_model::Index;

impl<'a, const K: usize> Undone<'a, K> {
    ghost use Rattle.dd_template.specs.Table.{table_of};
    ghost use Rattle.dd_template.specs.Joined.{IsMet, LeadsToMet, IsClosed, IsNext};
    ghost use Rattle.dd_template.specs.Connecting.{AreJoined};

    /// The part to which a move leads that stays in the chamber, if that part is not met.
    fn next_by(&self, met: &[bool; K], index: Index, part: PartNumber<K>) -> Option<usize>
        requires { IsMet met.now part.number }
        ensures { MatchOption result (LeadsToMet (table_of self.now.table.now) met.now index
            part.entry.number)
            (λ y. IsNext (table_of self.now.table.now) met.now y) }
    {
        let there = self.table.move_of(index, part.number);
        if there.by.is_some() || met[there.to] {
            return None;
        }
        Some(there.to)
    }

    /// A part that is not met, to which a move leads from one that is.
    fn next(&self, met: &[bool; K]) -> Option<usize>
        ensures { MatchOption result (IsClosed (table_of self.now.table.now) met.now)
            (λ y. IsNext (table_of self.now.table.now) met.now y) }
    {
        for part in 0..K {
            if met[part] {
                let from = PartNumber { number: part };
                let zero = self.next_by(met, Index::Zero, from);
                if zero.is_some() {
                    return zero;
                }
                let one = self.next_by(met, Index::One, from);
                if one.is_some() {
                    return one;
                }
                let two = self.next_by(met, Index::Two, from);
                if two.is_some() {
                    return two;
                }
            }
        }
        None
    }

    /// Returns whether moves that stay in the chamber join all parts: each step meets one part
    /// more.
    pub(crate) fn are_joined(&self) -> bool
        ensures { IsTrue result ↔ AreJoined (table_of self.now.table.now) }
    {
        let mut met = [false; K];
        met[0] = true;
        for _step in 1..K {
            match self.next(&met) {
                Some(part) => met[part] = true,
                None => return false,
            }
        }
        true
    }
}

impl<const K: usize> Template<K> {
    ghost use Rattle.dd_template.specs.Table.{table_of};
    ghost use Rattle.dd_template.specs.Connecting.{IsUsed, AreUsed};

    /// Returns whether some move goes by the involution.
    fn is_used(&self, index: Index) -> bool
        ensures { IsTrue result ↔ IsUsed (table_of self.now) index }
    {
        for part in 0..K {
            if self.move_of(Index::Zero, part).by == Some(index)
                || self.move_of(Index::One, part).by == Some(index)
                || self.move_of(Index::Two, part).by == Some(index)
            {
                return true;
            }
        }
        false
    }

    /// Returns whether each of the three involutions is that of some move.
    pub(crate) fn are_used(&self) -> bool
        ensures { IsTrue result ↔ AreUsed (table_of self.now) }
    {
        self.is_used(Index::Zero) && self.is_used(Index::One) && self.is_used(Index::Two)
    }
}
