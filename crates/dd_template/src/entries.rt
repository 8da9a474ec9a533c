ghost use Rattle.std.specs.Prelude.{◌≡◌, ℕ, ◌<◌, ◌≤◌, ◌↔◌, IsTrue};

use crate::lawful::goes_by;
use crate::part_number::PartNumber;
use crate::tables::Degree;
use crate::undone::Undone;
use dd_model::Pair;

impl<'a, const K: usize> Undone<'a, K> {
    ghost use Rattle.dd_template.specs.Table.{table_of, entry};
    ghost use Rattle.dd_template.specs.Entries.{AllFit, GoWithin, IsApart, IsTurned, Fits, entries};

    /// Returns whether the moves of a pair go by the involutions of another, or by none.
    fn go_within(&self, pair: Pair, other: Pair, part: PartNumber<K>) -> bool
        ensures { IsTrue result ↔ GoWithin (table_of self.now.table.now) pair other
            part.entry.number }
    {
        goes_by(other, self.table.move_of(pair.first(), part.number).by)
            && goes_by(other, self.table.move_of(pair.second(), part.number).by)
    }

    /// Returns whether fewer turns do not lead a part back to itself.
    fn is_apart(&self, pair: Pair, part: PartNumber<K>, turns: usize) -> bool
        requires { turns ≤ 64 }
        ensures { IsTrue result ↔ IsApart (table_of self.now.table.now) pair part.entry.number
            turns }
    {
        for fewer in 1..turns {
            if self.turned(pair, part, fewer).part == part.number {
                return false;
            }
        }
        true
    }

    /// Returns whether a part is first met again after `turns` turns, with two letters of the other
    /// pair.
    fn is_turned(&self, pair: Pair, other: Pair, part: PartNumber<K>, turns: u32) -> bool
        ensures { IsTrue result ↔ IsTurned (table_of self.now.table.now) pair other
            part.entry.number turns }
    {
        if turns == 0 || turns as usize > K || !self.is_apart(pair, part, turns as usize) {
            return false;
        }
        let walk = self.turned(pair, part, turns as usize);
        walk.part == part.number
            && (walk.word.is_two(other.first(), other.second())
                || walk.word.is_two(other.second(), other.first()))
    }

    /// Returns whether the entry of a part fits the moves of its pair.
    fn fits(&self, pair: Pair, part: PartNumber<K>) -> bool
        ensures { IsTrue result ↔ Fits (table_of self.now.table.now) pair part.entry.number
            (entry (entries (table_of self.now.table.now) pair) part.entry.number) }
    {
        match self.table.entry_of(pair, part.number) {
            Degree::OfTile(turns) => {
                self.go_within(pair, Pair::Tile, part)
                    && self.is_turned(pair, Pair::Tile, part, turns)
            }
            Degree::OfVertex(turns) => {
                self.go_within(pair, Pair::Vertex, part)
                    && self.is_turned(pair, Pair::Vertex, part, turns)
            }
            Degree::Fixed(degree) => {
                1 <= degree && degree <= 30 && self.leads_back(pair, part, degree as usize)
            }
        }
    }

    /// Returns whether the entries of all parts fit.
    pub(crate) fn all_fit(&self, pair: Pair) -> bool
        ensures { IsTrue result ↔ AllFit (table_of self.now.table.now) pair }
    {
        for part in 0..K {
            if !self.fits(pair, PartNumber { number: part }) {
                return false;
            }
        }
        true
    }
}
