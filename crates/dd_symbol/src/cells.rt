ghost use Rattle.std.specs.Prelude.{◌≡◌, ℕ, ◌+◌, ◌-◌, ◌<◌, ◌≤◌, length, slice_index_or, IfOk};

use crate::involutions::Involutions;
use crate::kind::Kind;
use crate::maps::item;
use crate::shapes::CellShape;
use dd_model::{Memory, Pair};
use std::alloc::Global;

impl Involutions {
    ghost use Rattle.dd_model.specs.Symbol.{IsChamber, item};
    ghost use Rattle.dd_model.specs.Cell.{IsPeriod, InCell, AreCells};
    ghost use Rattle.dd_symbol.specs.Images.{AreThreeInvolutions};
    ghost use Rattle.dd_symbol.specs.Cells.{AreLeast, ArePeriods, IsShapeOf};

    /// The least positive number of turns that fixes a chamber.
    pub fn period(&self, pair: Pair, chamber: u32) -> u32
        requires { IsChamber self.now chamber }
        ensures period { IsPeriod self.now pair chamber result }
        ensures three { AreThreeInvolutions self.now }
    {
        let mut place = self.turned(pair, chamber);
        let mut turns = 1;
        while place != chamber {
            place = self.turned(pair, place);
            turns += 1;
        }
        turns
    }

    /// The cell of a chamber: its least chamber, its kind and its r.
    pub fn cell(&self, pair: Pair, chamber: u32) -> CellShape
        requires { IsChamber self.now chamber }
        ensures { IsShapeOf self.now pair chamber result }
    {
        let mut least = chamber;
        let mut kind = Kind::Cycle;
        let mut place = chamber;
        for turn in 0..self.size() {
            let neighbor = self.op(pair.first(), place);
            let next = self.op(pair.second(), neighbor);
            least = least.min(place).min(neighbor);
            if neighbor == place || next == neighbor {
                kind = Kind::Chain;
            }
            if next == chamber {
                return CellShape {
                    least,
                    kind,
                    r: turn + 1,
                };
            }
            place = next;
        }
        unreachable!()
    }

    /// The least positive number of turns that fixes a chamber, where those of the smaller chambers
    /// are listed. A cell is walked only where no neighbor is smaller.
    fn following_period(&self, periods: &[u32], pair: Pair, chamber: u32) -> u32
        requires chamber { IsChamber self.now chamber }
        requires length { chamber ≤ length periods.now + 1 }
        requires before { (e : ℕ) → 1 ≤ e → e < chamber
            → IsPeriod self.now pair e (item periods.now e) }
        ensures { IsPeriod self.now pair chamber result }
    {
        let first = self.op(pair.first(), chamber);
        if first < chamber {
            return item(periods, first);
        }
        let second = self.op(pair.second(), chamber);
        if second < chamber {
            return item(periods, second);
        }
        self.period(pair, chamber)
    }

    /// For each chamber the least positive number of turns that fixes it.
    pub fn periods(&self, alloc: Global, pair: Pair) -> Result<Vec<u32>, Memory>
        ensures { IfOk result (λ periods. ArePeriods self.now pair periods.items) }
    {
        let mut periods = Vec::with_capacity(alloc, self.size() as usize)?;
        for k in 0..self.size() {
            let turns = self.following_period(&periods, pair, k + 1);
            periods.push(turns)?;
        }
        Ok(periods)
    }

    /// Writes a mark at each chamber of a cell.
    fn mark_cell<T: Copy>(&self, marks: &mut Vec<T>, pair: Pair, chamber: u32, mark: T)
        requires chamber { IsChamber self.now chamber }
        requires length { length marks.old.items ≡ self.now.size }
        ensures length { length marks.new.items ≡ self.now.size }
        ensures cell { (e : ℕ) → InCell self.now pair chamber e → (other : T)
            → slice_index_or marks.new.items (e - 1) other ≡ mark }
        ensures others { (e : ℕ) → IsChamber self.now e
            → (InCell self.now pair chamber e → ⊥) → (other : T)
            → slice_index_or marks.new.items (e - 1) other
            ≡ slice_index_or marks.old.items (e - 1) other }
    {
        let mut place = chamber;
        for _turn in 0..self.size() {
            let neighbor = self.op(pair.first(), place);
            marks[place as usize - 1] = mark;
            marks[neighbor as usize - 1] = mark;
            place = self.op(pair.second(), neighbor);
            if place == chamber {
                return;
            }
        }
        unreachable!()
    }

    /// For each chamber the least one of its cell.
    pub fn least_of_cells(&self, alloc: Global, pair: Pair) -> Result<Vec<u32>, Memory>
        ensures { IfOk result (λ least. AreLeast self.now pair least.items) }
    {
        let mut least = vec![in alloc; 0u32; self.size() as usize]?;
        for k in 0..self.size() {
            let chamber = k + 1;
            if item(&least, chamber) == 0 {
                self.mark_cell(&mut least, pair, chamber, chamber);
            }
        }
        Ok(least)
    }

    /// The least chambers of the cells of a pair, ascending.
    pub fn least_chambers(&self, alloc: Global, pair: Pair) -> Result<Vec<u32>, Memory>
        ensures { IfOk result (λ chambers. AreCells self.now pair chambers.items) }
    {
        let mut marked = vec![in alloc; false; self.size() as usize]?;
        let mut chambers = Vec::with_capacity(alloc, self.size() as usize)?;
        for k in 0..self.size() {
            if !marked[k as usize] {
                let chamber = k + 1;
                chambers.push(chamber)?;
                self.mark_cell(&mut marked, pair, chamber, true);
            }
        }
        Ok(chambers)
    }
}
