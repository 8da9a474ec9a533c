ghost use Rattle.std.specs.Prelude.{◌≡◌, ◌≢◌, ℕ, ◌+◌, [], ◌∷◌, ◌++◌, ◌*◌, ◌≤◌, ◌<◌, ◌↔◌, IsTrue, length};
ghost use Rattle.std.specs.Bool.{OnTrue, OnFalse};
ghost use Rattle.dd_model.specs.FirstVisit.{Grows};
ghost use Rattle.dd_model.specs.Symbol.{op};
ghost use Rattle.dd_front_jobs.specs.FirstVisit.{AreMet};
ghost use Rattle.dd_branch_tables.specs.Rows.{partial_of, depth_of};
ghost use Rattle.dd_front_jobs.specs.Under.{HasNothingUnder};

use crate::chamber_set::ChamberSet;
use crate::first_numbers::FirstNumbers;
use crate::partial_table::{PartialTable, index_at};
use crate::traversal::{FirstVisits, Standing, stand};
use dd_model::Index;

/// A prefix of the codes of tables of one size, with the partial table that follows from it. A
/// number is put at its end and taken away again in place, and no call allocates.
#[derive(Drop)]
pub struct Stem {
    rows: PartialTable,
    prefix: FirstNumbers,
}

impl Stem {
    ghost use Rattle.dd_branch_tables.specs.Chambers.{bit_of};
    ghost use Rattle.dd_branch_tables.specs.Stem.{Any, IsStem, HasAbsorbed, prefix_of, size_of, cut_to, shortened};

    /// The empty prefix.
    pub fn new(size: u8) -> Stem
        requires { (1 ≤ size) × (size ≤ 36) }
        ensures stem { IsStem result }
        ensures size { size_of result ≡ size }
        ensures empty { prefix_of result ≡ [] }
    {
        let rows = PartialTable::empty(size);
        let prefix = FirstNumbers::new();
        Stem { rows, prefix }
    }

    /// The numbers of the prefix.
    pub fn prefix(&self) -> &[u8]
        ensures { result.now ≡ prefix_of self.now }
    {
        self.prefix.as_slice()
    }

    /// The number of chambers.
    pub fn size(&self) -> u8
        ensures { result ≡ size_of self.now }
    {
        self.rows.size()
    }

    /// The table, as far as it is known.
    pub fn rows(&self) -> &PartialTable
        ensures { result.now ≡ self.now.rows }
    {
        &self.rows
    }

    /// Returns whether all images are known.
    pub fn is_whole(&self) -> bool
        ensures whole { IsTrue result ↔ (length (prefix_of self.now) ≡ 3 * size_of self.now) }
        ensures few { 3 * size_of self.now ≤ 108 }
    {
        self.prefix.len() == 3 * self.rows.size() as usize
    }

    /// How much has been put into the table.
    pub fn mark(&self) -> usize
        ensures { result ≡ depth_of self.now.rows }
    {
        self.rows.mark()
    }

    /// The numbers that may come next: the one that is known there, or each chamber without an
    /// image up to the first that has not been met. There are none where the chamber whose image is
    /// next has not been met.
    pub fn candidates(&self) -> ChamberSet
        requires stem { IsStem self.now }
        requires room { length (prefix_of self.now) < 3 * size_of self.now }
        ensures others { (m : ℕ) → bit_of result m ≡ 0
            → HasNothingUnder Any (size_of self.now) (prefix_of self.now ++ m ∷ []) }
        ensures chambers { (m : ℕ) → bit_of result m ≡ 1 → m ≤ size_of self.now }
    {
        if self.is_stuck() {
            return ChamberSet::none();
        }
        let place = self.prefix.len() as u8;
        let known = self.rows.number_at(place);
        if known != 0 {
            return ChamberSet::only(known);
        }
        let last = 1 + self.prefix.greatest().min(self.rows.size() - 1);
        self.rows.free_to(index_at(place), last)
    }

    /// Puts a number at the end, with what follows by commuting, unless commuting forbids it.
    pub fn put(&mut self, number: u8) -> bool
        requires stem { IsStem self.old }
        requires room { length (prefix_of self.old) < 3 * size_of self.old }
        ensures stem { IsStem self.new }
        ensures longer { OnTrue result (prefix_of self.new ≡ prefix_of self.old ++ number ∷ []) }
        ensures size { size_of self.new ≡ size_of self.old }
        ensures undone { OnTrue result (shortened self.new (depth_of self.old.rows) ≡ self.old) }
        ensures same { OnFalse result (self.new ≡ self.old) }
        ensures dead { OnFalse result
            (HasNothingUnder Any (size_of self.old) (prefix_of self.old ++ number ∷ [])) }
    {
        let place = self.prefix.len() as u8;
        if !self.rows.put(place, number) {
            return false;
        }
        self.prefix.push(number);
        true
    }

    /// Puts the numbers at the end that are known already, up to the first place with none. The
    /// tables under the prefix are the same before and after.
    pub fn absorb(&mut self)
        requires { IsStem self.old }
        ensures stem { IsStem self.new }
        ensures absorbed { HasAbsorbed self.old self.new }
    {
        while self.prefix.len() < 3 * self.rows.size() as usize {
            let number = self.rows.number_at(self.prefix.len() as u8);
            if number == 0 {
                return;
            }
            self.prefix.push(number);
        }
    }

    /// Returns whether the chamber whose image is next has not been met, so that nothing is under
    /// the prefix.
    pub fn is_stuck(&self) -> bool
        requires { IsStem self.now }
        ensures { IsTrue result → HasNothingUnder Any (size_of self.now) (prefix_of self.now) }
    {
        if self.is_whole() {
            return false;
        }
        1 + self.prefix.len() / 3 > self.prefix.greatest() as usize
    }

    /// Returns whether each number is at most one more than the greatest of 1 and the numbers
    /// before it.
    pub fn grows(&self) -> bool
        ensures { IsTrue result ↔ Grows 1 (prefix_of self.now) }
    {
        self.prefix.grows()
    }

    /// Returns whether each chamber but 1 is met among the images of the chambers before it.
    pub fn meets_all(&self) -> bool
        requires { length (prefix_of self.now) ≡ 3 * size_of self.now }
        ensures { IsTrue result ↔ AreMet (size_of self.now) (prefix_of self.now) }
    {
        for k in 1..self.rows.size() {
            if self.prefix.greatest_of(3 * k as usize) <= k {
                return false;
            }
        }
        true
    }

    /// How the traversal from a chamber stands to the prefix. Where it reads smaller, nothing is
    /// under the prefix.
    pub(crate) fn standing(&self, start: u8, visit: &mut FirstVisits) -> Standing
        requires { IsStem self.now }
        ensures { result ≡ Standing.Smaller
            → HasNothingUnder Any (size_of self.now) (prefix_of self.now) }
    {
        if start == 0 || start > self.rows.size() {
            return Standing::Larger;
        }
        stand(&self.rows, self.prefix.as_slice(), start, visit)
    }

    /// Returns whether the traversal from some start gives a smaller code, so that nothing is under
    /// the prefix. A tie is none. Chamber 1 reads as the prefix itself, and is not tried.
    pub fn is_beaten(&self, visit: &mut FirstVisits) -> bool
        requires { IsStem self.now }
        ensures { IsTrue result → HasNothingUnder Any (size_of self.now) (prefix_of self.now) }
    {
        for k in 1..self.rows.size() {
            match self.standing(k + 1, visit) {
                Standing::Smaller => return true,
                Standing::Larger | Standing::Open(_) => {}
            }
        }
        false
    }

    /// Puts a number at the end with what follows from it, unless nothing is under the longer
    /// prefix: commuting forbids it, or the traversal from some chamber gives a smaller code.
    pub fn enter(&mut self, number: u8, visit: &mut FirstVisits) -> bool
        requires stem { IsStem self.old }
        requires room { length (prefix_of self.old) < 3 * size_of self.old }
        ensures stem { IsStem self.new }
        ensures longer { OnTrue result (prefix_of self.new ≡ prefix_of self.old ++ number ∷ []) }
        ensures size { size_of self.new ≡ size_of self.old }
        ensures undone { OnTrue result (shortened self.new (depth_of self.old.rows) ≡ self.old) }
        ensures same { OnFalse result (self.new ≡ self.old) }
        ensures dead { OnFalse result
            (HasNothingUnder Any (size_of self.old) (prefix_of self.old ++ number ∷ [])) }
    {
        let mark = self.mark();
        if !self.put(number) {
            return false;
        }
        if self.is_beaten(visit) {
            self.leave(mark);
            return false;
        }
        true
    }

    /// Takes away the last number, and what was put into the table after a mark.
    pub fn leave(&mut self, mark: usize)
        ensures { self.new ≡ shortened self.old mark }
    {
        let count = self.prefix.len().saturating_sub(1);
        self.cut(count, mark);
    }

    /// Takes away all but `count` numbers, and what was put into the table after a mark.
    pub fn cut(&mut self, count: usize, mark: usize)
        ensures { self.new ≡ cut_to self.old count mark }
    {
        self.rows.undo(mark);
        self.prefix.truncate(count);
    }
}
