ghost use Rattle.std.specs.Prelude.{◌≡◌, ◌-◌, ◌≤◌, ◌<◌, [], ◌∷◌, ◌++◌, IfOk, IsTrue, length, take};
ghost use Rattle.std.specs.List.{slice_get};
ghost use Rattle.std.specs.declared.option.Option.TheVariants.{Some};
ghost use Rattle.dd_model.specs.Symbol.{Symbol as Tiling};
ghost use Rattle.dd_branch_tables.specs.Rows.{partial_of};
ghost use Rattle.dd_branch_bounds.specs.Shares.{IsSought};
ghost use Rattle.dd_branch_bounds.specs.Kept.{AreSides};

use crate::undo_point::UndoPoint;
use dd_branch_bounds::{PathShares, TablePaths};
use dd_branch_tables::PartialTable;
use dd_model::Memory;
use std::alloc::Global;
use std::marker::Model;

/// How many levels there may be: one for each number of the longest code, and that of the whole
/// one.
const ROOM: usize = 109;

/// The levels of a search, the one where it is at the end. The room for all is taken once. A level
/// is large, so it is read and changed in place. If a level was taken away, the next one is written
/// in its place. So the paths are copied once for each number that is put in.
#[derive(Drop)]
pub(crate) struct UndoPoints {
    levels: Vec<UndoPoint>,
    count: usize,
}

impl Model for UndoPoints {
    ghost use Rattle.std.specs.Prelude.{take};
    ghost use Rattle.std.specs.List.{slice_get};
    ghost use Rattle.dd_branch.specs.Levels.{Leveled, HasRoom, sides_of};

    ghost Value = { Leveled };

    ghost view = { λ a. record {
      before = take a.count a.levels.items;
      sides = sides_of (slice_get a.levels.items a.count);
    } };

    ghost invariant = { λ a. HasRoom a.count a.levels };
}

impl UndoPoints {
    ghost use Rattle.dd_branch.specs.Levels.{level_of, Leveled};

    /// Only the first level.
    pub(crate) fn new(alloc: Global, sides: &TablePaths) -> Result<UndoPoints, Memory>
        ensures before { IfOk result (λ levels. levels.before ≡ []) }
        ensures sides { IfOk result (λ levels. levels.sides ≡ sides.now) }
    {
        let mut levels = Vec::with_capacity(alloc, ROOM)?;
        levels.push_reserved(UndoPoint {
            numbers: 0,
            rows: 0,
            sides: *sides,
            starts: 0,
        });
        Ok(UndoPoints { levels, count: 0 })
    }

    /// How many there are before the one where the search stands.
    pub(crate) fn len(&self) -> usize
        ensures { result ≡ length self.now.before }
    {
        self.count
    }

    /// The paths of the table.
    pub(crate) fn sides(&self) -> &TablePaths
        ensures { result.now ≡ self.now.sides }
    {
        &self.levels[self.count].sides
    }

    /// The one before.
    pub(crate) fn last(&self) -> &UndoPoint
        requires { 1 ≤ length self.now.before }
        ensures { slice_get self.now.before (length self.now.before - 1) ≡ Some result.now }
    {
        &self.levels[self.count - 1]
    }

    /// Joins the paths that what was put into the table after a mark joins. True where no wanted
    /// symbol completes the table.
    pub(crate) fn learn(&mut self, classes: &PathShares, table: &PartialTable, mark: usize) -> bool
        requires kept { AreSides classes.now (partial_of table.now) self.old.sides }
        ensures before { self.new.before ≡ self.old.before }
        ensures kept { AreSides classes.now (partial_of table.now) self.new.sides }
        ensures dead { IsTrue result → (s : Tiling)
            → ¬ IsSought classes.now.request (partial_of table.now) s }
    {
        self.levels[self.count].sides.learn(classes, table, mark)
    }

    /// Goes on to the next one, which has the same paths, with what there was before it.
    pub(crate) fn push(&mut self, numbers: usize, rows: usize, starts: usize)
        requires { length self.old.before < 108 }
        ensures before { self.new.before
            ≡ self.old.before ++ level_of numbers rows self.old.sides starts ∷ [] }
        ensures sides { self.new.sides ≡ self.old.sides }
    {
        let here = self.count;
        let level = &mut self.levels[here];
        level.numbers = numbers;
        level.rows = rows;
        level.starts = starts;
        self.count += 1;
        if self.count == self.levels.len() {
            let next = self.levels[here];
            self.levels.push_reserved(next);
        } else {
            self.levels[self.count] = self.levels[here];
        }
    }

    /// Goes back to the one before.
    pub(crate) fn drop_last(&mut self)
        requires { 1 ≤ length self.old.before }
        ensures before { self.new.before ≡ take (length self.old.before - 1) self.old.before }
        ensures sides { (level : UndoPoint)
            → slice_get self.old.before (length self.old.before - 1) ≡ Some level
            → self.new.sides ≡ level.sides }
    {
        self.count -= 1;
    }
}
