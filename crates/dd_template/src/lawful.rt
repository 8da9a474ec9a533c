ghost use Rattle.std.specs.Prelude.{◌≡◌, ◌⊎◌, ℕ, ◌+◌, ◌*◌, ◌<◌, ◌≤◌, ◌↔◌, IsTrue, [], length};
ghost use Rattle.dd_template.specs.Entries.{GoesBy};

use crate::part_number::PartNumber;
use crate::tables::{Degree, Move, Template};
use crate::undone::Undone;
use crate::words::Letters;
use dd_model::{Index, Pair};

/// Where a walk from a part has come to, and the reduced word of its moves.
#[derive(Drop)]
pub(crate) struct WalkEnd {
    pub(crate) part: usize,
    pub(crate) word: Letters,
}

/// Returns whether a move goes by an involution of the pair, or by none.
pub(crate) fn goes_by(pair: Pair, by: Option<Index>) -> bool
    ensures { IsTrue result ↔ GoesBy pair by }
{
    match by {
        None => true,
        Some(index) => index == pair.first() || index == pair.second(),
    }
}

impl<const K: usize> Template<K> {
    ghost use Rattle.dd_template.specs.Table.{table_of, moves, move, entry};
    ghost use Rattle.dd_model.specs.declared.index.Index.{Index};
    ghost use Rattle.dd_template.specs.Moves.{RowLeadsBack, AreUndoneBy, AreUndone};
    ghost use Rattle.dd_template.specs.Entries.{entries};

    /// The moves of all parts by an involution.
    fn moves_by(&self, index: Index) -> &[Move; K]
        ensures { result.now ≡ moves (table_of self.now) index }
    {
        match index {
            Index::Zero => &self.ops[0],
            Index::One => &self.ops[1],
            Index::Two => &self.ops[2],
        }
    }

    /// The move of a part by an involution.
    pub fn move_of(&self, index: Index, part: usize) -> Move
        requires part { part < K }
        ensures { result ≡ move (table_of self.now) index part }
    {
        self.moves_by(index)[part]
    }

    /// Returns whether each move of a row, which has one for each part, leads back by the same
    /// involution.
    fn lead_back(row: &[Move; K]) -> bool
        ensures back { IsTrue result ↔ RowLeadsBack row.now }
        ensures parts { length row.now ≡ K }
    {
        for part in 0..K {
            let there = row[part];
            if there.to >= K {
                return false;
            }
            let back = row[there.to];
            if back.by != there.by || back.to != part {
                return false;
            }
        }
        true
    }

    /// Returns whether all moves by an involution lead back.
    fn are_undone_by(&self, index: Index) -> bool
        ensures undone { IsTrue result ↔ AreUndoneBy (table_of self.now) index }
        ensures parts { length (moves (table_of self.now) index) ≡ K }
    {
        Self::lead_back(self.moves_by(index))
    }

    /// Returns whether all moves lead back.
    pub(crate) fn are_undone(&self) -> bool
        ensures undone { IsTrue result ↔ AreUndone (table_of self.now) }
        ensures parts { IsTrue result → (i : Index) → length (moves (table_of self.now) i) ≡ K }
    {
        self.are_undone_by(Index::Zero)
            && self.are_undone_by(Index::One)
            && self.are_undone_by(Index::Two)
    }

    /// The entry of a part that belongs to its tile or its vertex.
    pub fn entry_of(&self, pair: Pair, part: usize) -> Degree
        requires part { part < K }
        ensures { result ≡ entry (entries (table_of self.now) pair) part }
    {
        match pair {
            Pair::Tile => self.face[part],
            Pair::Vertex => self.degree[part],
            Pair::Edge => Degree::Fixed(0),
        }
    }
}

impl<'a, const K: usize> Undone<'a, K> {
    ghost use Rattle.dd_model.specs.Symbol.{power, turn};
    ghost use Rattle.dd_template.specs.Table.{table_of, part_after};
    ghost use Rattle.dd_template.specs.Reduced.{carried};
    ghost use Rattle.dd_template.specs.Letters.{word_of};
    ghost use Rattle.dd_template.specs.Moves.{Commute, LeadsBack};
    ghost use Rattle.dd_template.specs.Entries.{AreConstant, IsConstant};

    /// Returns where `turns` turns of a pair lead.
    pub(crate) fn turned(&self, pair: Pair, part: PartNumber<K>, turns: usize) -> WalkEnd
        requires { turns ≤ 64 }
        ensures part { result.part ≡ part_after (table_of self.now.table.now)
            (power (turn pair) turns) part.entry.number }
        ensures word { word_of result.word ≡ carried (table_of self.now.table.now)
            (power (turn pair) turns) part.entry.number [] }
    {
        let mut place = part.number;
        let mut word = Letters::new();
        let mut left = turns;
        while left > 0 {
            let there = self.table.move_of(pair.first(), place);
            word.put_move(there.by);
            let next = self.table.move_of(pair.second(), there.to);
            word.put_move(next.by);
            place = next.to;
            left -= 1;
        }
        WalkEnd { part: place, word }
    }

    /// Returns whether `turns` turns of a pair lead a part back to itself with a word that reduces
    /// to none.
    pub(crate) fn leads_back(&self, pair: Pair, part: PartNumber<K>, turns: usize) -> bool
        requires { turns ≤ 64 }
        ensures { IsTrue result ↔ LeadsBack (table_of self.now.table.now)
            (power (turn pair) turns) part.entry.number [] }
    {
        let walk = self.turned(pair, part, turns);
        walk.part == part.number && walk.word.is_empty()
    }

    /// Returns whether s0 and s2 commute.
    pub(crate) fn commute(&self) -> bool
        ensures { IsTrue result ↔ Commute (table_of self.now.table.now) }
    {
        for part in 0..K {
            if !self.leads_back(Pair::Edge, PartNumber { number: part }, 2) {
                return false;
            }
        }
        true
    }

    /// Returns whether the entries are equal along the moves of the pair from a part.
    fn is_constant(&self, pair: Pair, part: PartNumber<K>) -> bool
        ensures { IsTrue result ↔ IsConstant (table_of self.now.table.now) pair part.entry.number }
    {
        let own = self.table.entry_of(pair, part.number);
        let first = self.table.move_of(pair.first(), part.number).to;
        let second = self.table.move_of(pair.second(), part.number).to;
        self.table.entry_of(pair, first) == own && self.table.entry_of(pair, second) == own
    }

    /// Returns whether the entries are equal along all moves of the pair.
    pub(crate) fn are_constant(&self, pair: Pair) -> bool
        ensures { IsTrue result ↔ AreConstant (table_of self.now.table.now) pair }
    {
        for part in 0..K {
            if !self.is_constant(pair, PartNumber { number: part }) {
                return false;
            }
        }
        true
    }
}
