ghost use Rattle.std.specs.Prelude.{◌≡◌, ◌*◌, ◌+◌, ◌≤◌, ◌<◌, [], ◌∷◌, ◌++◌, IsTrue, IsFalse, IfOk, length};
ghost use Rattle.std.specs.Bool.{OnTrue, OnFalse};
ghost use Rattle.dd_model.specs.Request.{IsValid};
ghost use Rattle.dd_model.specs.Wanted.{IsMember};
ghost use Rattle.dd_front_jobs.specs.Under.{HasNothingUnder};
ghost use Rattle.dd_branch_tables.specs.Stem.{HasAbsorbed, IsStem};

use crate::undo_points::UndoPoints;
use dd_branch_bounds::{PathShares, TablePaths, parity_rules_out};
use dd_branch_degrees::{add_tied, with_places};
use dd_branch_tables::{
    ChamberSet, CollectingSearch, PrefixSearch, Starts, Stem, involutions, ties,
};
use dd_front_jobs::can_follow;
use dd_member_lists::SymbolList;
use dd_model::{Memory, Request};
use std::alloc::Global;
use std::marker::Model;

/// A search for the members of one size of a catalogue: a prefix with its table, the shares of the
/// table's paths, and what there was before each number. It grows and is shortened in place, in
/// room that is taken once: only what lists members or jobs allocates.
#[derive(Drop)]
pub struct Descent {
    pub(crate) alloc: Global,
    request: Request,
    pub(crate) stem: Stem,
    classes: PathShares,
    levels: UndoPoints,
    starts: Starts,
}

impl Model for Descent {
    ghost use Rattle.dd_branch.specs.Descent.{Descending, GoesBack, descending};

    ghost Value = { Descending };

    ghost view = { λ a. descending a.request a.stem a.classes a.levels };

    ghost invariant = { λ a. GoesBack (descending a.request a.stem a.classes a.levels) };
}

/// Takes in the numbers that are known after the prefix, where that is asked.
fn absorb(stem: &mut Stem, with_known: bool)
    requires { IsStem stem.old }
    ensures stem { IsStem stem.new }
    ensures absorbed { HasAbsorbed stem.old stem.new }
    ensures same { IsFalse with_known → stem.new ≡ stem.old }
{
    if with_known {
        stem.absorb();
    }
}

impl Descent {
    ghost use Rattle.dd_branch_tables.specs.Rows.{depth_of};
    ghost use Rattle.dd_branch_tables.specs.Stem.{prefix_of, size_of};
    ghost use Rattle.dd_branch.specs.Descent.{HasDescended, shorter, with_paths};
    ghost use Rattle.dd_branch_bounds.specs.declared.table_paths.TablePaths.{TablePaths};

    /// The search from the empty prefix, with the shares that the request allows to tables of the
    /// size.
    pub fn new(
        alloc: Global,
        request: &Request,
        classes: &PathShares,
        size: u8,
    ) -> Result<Descent, Memory>
        requires valid { IsValid request.now }
        requires asked { classes.now.request ≡ request.now }
        requires size { (1 ≤ size) × (size ≤ 36) }
        ensures request { IfOk result (λ descent. descent.request ≡ request.now) }
        ensures size { IfOk result (λ descent. size_of descent.stem ≡ size) }
        ensures empty { IfOk result (λ descent. prefix_of descent.stem ≡ []) }
        ensures levels { IfOk result (λ descent. descent.levels ≡ []) }
    {
        let classes = classes.for_size(size);
        let levels = UndoPoints::new(alloc, &TablePaths::start(&classes))?;
        Ok(Descent {
            alloc,
            request: *request,
            stem: Stem::new(size),
            classes,
            levels,
            starts: Starts::new(size),
        })
    }

    /// The number of chambers.
    pub(crate) fn size(&self) -> u8
        ensures size { result ≡ size_of self.now.stem }
        ensures few { result ≤ 36 }
    {
        self.stem.size()
    }

    /// How many images are known in the table.
    pub fn known(&self) -> usize
        ensures known { result ≡ depth_of self.now.stem.rows }
        ensures short { length (prefix_of self.now.stem) ≤ 3 * size_of self.now.stem }
    {
        self.stem.mark()
    }

    /// Returns whether the shares show, before a number is put in, that no member is under the
    /// prefix with it.
    fn shares_refuse(&self, number: u8) -> bool
        requires { length (prefix_of self.now.stem) < 3 * size_of self.now.stem }
        ensures { IsTrue result
            → HasNothingUnder (IsMember self.now.request) (size_of self.now.stem)
            (prefix_of self.now.stem ++ number ∷ []) }
    {
        let place = self.stem.prefix().len() as u8;
        number <= self.stem.size()
            && self
                .levels
                .sides()
                .rules_out_number(&self.classes, self.stem.rows(), place, number)
    }

    /// Puts a number at the end of the prefix, with a level for what there was. If `with_known` is
    /// true, puts all numbers that are known after it too. Returns false if commuting forbids the
    /// number, or if the next chamber is then one that was not met.
    fn put(&mut self, number: u8, with_known: bool, numbers: usize, rows: usize) -> bool
        requires numbers { numbers ≡ length (prefix_of self.old.stem) }
        requires rows { rows ≡ depth_of self.old.stem.rows }
        requires room { length (prefix_of self.old.stem) < 3 * size_of self.old.stem }
        ensures alive { OnTrue result (HasDescended number self.old self.new) }
        ensures alone { OnTrue result (IsFalse with_known
            → prefix_of self.new.stem ≡ prefix_of self.old.stem ++ number ∷ []) }
        ensures some { OnTrue result (1 ≤ length self.new.levels) }
        ensures undone { OnTrue result ((sides : TablePaths)
            → shorter (with_paths self.new sides) ≡ self.old) }
        ensures same { OnFalse result (self.new ≡ self.old) }
        ensures dead { OnFalse result
            (HasNothingUnder (IsMember self.old.request) (size_of self.old.stem)
            (prefix_of self.old.stem ++ number ∷ [])) }
    {
        if !self.stem.put(number) {
            return false;
        }
        absorb(&mut self.stem, with_known);
        if self.stem.is_stuck() {
            self.stem.cut(numbers, rows);
            return false;
        }
        let starts = self.starts.mark();
        self.levels.push(numbers, rows, starts);
        true
    }

    /// Joins the paths that what was put into the table after a mark joins. True where it is sure
    /// that no member is under the prefix.
    fn learn(&mut self, rows: usize) -> bool
        ensures paths { self.new ≡ with_paths self.old self.new.shares.sides }
        ensures dead { IsTrue result
            → HasNothingUnder (IsMember self.old.request) (size_of self.old.stem)
            (prefix_of self.old.stem) }
    {
        self.levels.learn(&self.classes, self.stem.rows(), rows)
    }

    /// Returns whether it is sure that no member is under the prefix, which has grown since it had
    /// `numbers` numbers and `rows` images. There are three reasons: its size is odd and s0 moves
    /// chamber 1, the shares are too small, or another numbering has a smaller code.
    fn is_cut(&mut self, numbers: usize, rows: usize) -> bool
        ensures same { self.new ≡ self.old }
        ensures dead { IsTrue result
            → HasNothingUnder (IsMember self.old.request) (size_of self.old.stem)
            (prefix_of self.old.stem) }
    {
        parity_rules_out(self.stem.rows())
            || self
                .levels
                .sides()
                .rules_out(&self.classes, self.stem.rows())
            || self.starts.any_beats(&self.stem, numbers, rows)
    }

    /// Joins the paths that have met since there were `numbers` numbers and `rows` images. Returns
    /// true if it is sure that no member is under the prefix.
    fn is_dead(&mut self, numbers: usize, rows: usize) -> bool
        ensures paths { self.new ≡ with_paths self.old self.new.shares.sides }
        ensures dead { IsTrue result
            → HasNothingUnder (IsMember self.old.request) (size_of self.old.stem)
            (prefix_of self.old.stem) }
    {
        self.learn(rows) || self.is_cut(numbers, rows)
    }

    /// Goes back to the last level.
    pub(crate) fn drop_level(&mut self)
        requires { 1 ≤ length self.old.levels }
        ensures { self.new ≡ shorter self.old }
    {
        let level = self.levels.last();
        self.stem.cut(level.numbers, level.rows);
        self.starts.undo(level.starts);
        self.levels.drop_last();
    }

    /// Puts a number at the end of the prefix, and where that is asked all that are known after it,
    /// unless it is sure that no member is under the longer prefix.
    pub(crate) fn descend(&mut self, number: u8, with_known: bool) -> bool
        requires { length (prefix_of self.old.stem) < 3 * size_of self.old.stem }
        ensures alive { OnTrue result (HasDescended number self.old self.new) }
        ensures alone { OnTrue result (IsFalse with_known
            → prefix_of self.new.stem ≡ prefix_of self.old.stem ++ number ∷ []) }
        ensures some { OnTrue result (1 ≤ length self.new.levels) }
        ensures undone { OnTrue result (shorter self.new ≡ self.old) }
        ensures same { OnFalse result (self.new ≡ self.old) }
        ensures dead { OnFalse result
            (HasNothingUnder (IsMember self.old.request) (size_of self.old.stem)
            (prefix_of self.old.stem ++ number ∷ [])) }
    {
        let numbers = self.stem.prefix().len();
        let rows = self.stem.mark();
        if !self.put(number, with_known, numbers, rows) {
            return false;
        }
        if self.is_dead(numbers, rows) {
            self.drop_level();
            return false;
        }
        true
    }

    /// Returns whether a member may be under the prefix with one number more.
    pub fn may_grow(&mut self, number: u8) -> bool
        requires room { length (prefix_of self.old.stem) < 3 * size_of self.old.stem }
        requires small { number ≤ 216 }
        ensures same { self.new ≡ self.old }
        ensures dead { OnFalse result
            (HasNothingUnder (IsMember self.old.request) (size_of self.old.stem)
            (prefix_of self.old.stem ++ number ∷ [])) }
    {
        if !can_follow(self.stem.size() as u32, self.stem.prefix(), number) {
            return false;
        }
        if self.shares_refuse(number) {
            return false;
        }
        let mark = self.mark();
        if !self.enter(number) {
            return false;
        }
        self.leave(mark);
        true
    }
}

impl PrefixSearch for Descent {
    ghost use Rattle.std.proofs.Common.{rules};
    ghost use Rattle.dd_branch.specs.Descent.{descent_laws};

    ghost laws = { descent_laws };

    ghost end_small = { Prim.search rules };

    fn is_whole(&self) -> bool {
        self.stem.is_whole()
    }

    fn mark(&self) -> usize {
        self.levels.len()
    }

    #[inline(always)]
    fn candidates(&self) -> ChamberSet {
        let place = self.stem.prefix().len() as u8;
        let numbers = self.stem.candidates();
        self.levels
            .sides()
            .sieve(&self.classes, self.stem.rows(), place, numbers)
    }

    fn enter(&mut self, number: u8) -> bool {
        self.descend(number, true)
    }

    fn leave(&mut self, _mark: usize) {
        if self.levels.len() > 0 {
            self.drop_level();
        }
    }
}

impl CollectingSearch for Descent {
    fn add(&mut self, list: &mut SymbolList) -> Result<(), Memory> {
        let Some(ties) = ties(&self.stem, self.alloc)? else {
            return Ok(());
        };
        let involutions = involutions(&self.stem, self.alloc)?;
        let (table, places) = with_places(involutions, &self.request)?;
        add_tied(self.alloc, table, ties, places, &self.request, list)
    }
}
