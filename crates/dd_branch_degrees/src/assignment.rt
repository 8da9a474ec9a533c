ghost use Rattle.std.specs.Prelude.{◌≡◌, ℕ, ◌*◌, ◌/◌, ◌+◌, ◌≤◌, ◌<◌, [], ◌∷◌, ◌++◌, ◌↔◌, IsTrue, IfOk, IfSome, OnOk, OnErr, MatchOption, length, slice_index};
ghost use Rattle.std.specs.Bool.{OnTrue, OnFalse};
ghost use Rattle.dd_model.specs.Symbol.{Symbol as Tiling};
ghost use Rattle.dd_model.specs.Small.{IsSmallSymbol};
ghost use Rattle.dd_symbol.specs.Images.{with_degrees};
ghost use Rattle.dd_member_lists.specs.Lists.{with_told};
ghost use Rattle.dd_canon.specs.Ties.{AreTies, IsLeastFrom};
ghost use Rattle.dd_model.specs.Minimal.{Minimal};
ghost use Rattle.dd_model.specs.Wanted.{IsMember};
ghost use Rattle.dd_branch_tables.specs.Table.{IsBareTable};
ghost use Rattle.dd_front_jobs.specs.Under.{next_number, AreUnder, Appends};
ghost use Rattle.dd_branch_tables.specs.Growth.{HasGrown};
ghost use Rattle.dd_branch_degrees.specs.Choice.{IsChoice};
ghost use Rattle.dd_branch_degrees.specs.Assignment.{HasLast, HasLimits, IsAtRoot, IsMemberUnder, next_place, prefix_of, spent_by, told};
ghost use Rattle.dd_branch_degrees.specs.Place.{ArePlaces};
ghost use Rattle.dd_branch_degrees.specs.Automorphism.{AreAutomorphisms};
ghost use Rattle.dd_branch_degrees.specs.Entered.{AreFitting, HasBudget, HasEntered, HasForced, HasTold};

use crate::later_budgets::LaterBudgets;
use crate::minimality::is_minimal;
use crate::places::DegreeSlot;
use crate::ties::Ties;
use arrayvec::ArrayVec;
use dd_member_lists::SymbolList;
use dd_model::{Memory, Request};
use dd_symbol::Connected;
use std::alloc::Global;
use std::marker::Model;

/// A search for the degrees of a table, of which those of the first places are set. A degree is set
/// at the least chamber of a cell, and at once at the others that follow. All are taken away again
/// in place. No such step allocates.
#[derive(Drop)]
pub(crate) struct Assignment {
    alloc: Global,
    request: Request,
    /// The involutions, with any degrees.
    table: Connected,
    /// The starts from which the table is numbered as it stands: leastness is decided under these.
    ties: Ties,
    /// What the table decides of each degree.
    pub(crate) places: ArrayVec<DegreeSlot, 72>,
    /// What the degrees from each place on will have of the budget.
    budgets: LaterBudgets,
    /// The degrees that are set.
    pub(crate) degrees: ArrayVec<u8, 72>,
    /// How many symbols the list had when the table came to which the members go.
    pub(crate) first: usize,
}

impl Model for Assignment {
    ghost use Rattle.dd_branch_degrees.specs.Assignment.{Assigned, IsAssignment};

    ghost Value = { Assigned };

    ghost use Rattle.dd_branch_degrees.specs.Kept.{assigned_of};

    ghost view = { assigned_of };

    ghost invariant = { λ a. IsAssignment (assigned_of a) };
}

impl Assignment {
    /// The search from a table of which no degree is set.
    pub(crate) fn new(
        alloc: Global,
        table: Connected,
        ties: Ties,
        places: ArrayVec<DegreeSlot, 72>,
        q: &Request,
        first: usize,
    ) -> Assignment
        requires table { IsBareTable table }
        requires limits { HasLimits q.now table }
        requires ties { AreTies table ties.starts.items }
        requires automorphisms { IfSome ties.automorphisms (λ all.
            AreAutomorphisms table ties.starts.items all.items) }
        requires places { ArePlaces q.now table places.items }
        ensures root { IsAtRoot result }
        ensures request { result.request ≡ q.now }
        ensures table { result.table ≡ table }
        ensures none { result.degrees.items ≡ [] }
        ensures first { result.first ≡ first }
    {
        Assignment {
            alloc,
            request: *q,
            table,
            ties,
            budgets: LaterBudgets::of(&places),
            places,
            degrees: ArrayVec::new(),
            first,
        }
    }

    /// The number of chambers.
    fn size(&self) -> usize
        ensures { result ≡ self.now.table.size }
    {
        self.table.symbol().size() as usize
    }

    /// What is known of the next degree.
    pub(crate) fn next_place(&self) -> DegreeSlot
        requires { told self.now < 2 * self.now.table.size }
        ensures { result ≡ next_place self.now }
    {
        self.places.as_slice()[self.degrees.len()]
    }

    /// Returns what all degrees have to take of the budget beyond their least, if none is set.
    /// Returns None if they cannot spend it.
    pub(crate) fn whole_budget(&self) -> Option<u16>
        requires { self.now.degrees.items ≡ [] }
        ensures room { told self.now < 2 * self.now.table.size }
        ensures left { MatchOption result
            ((s : Tiling) → IsMemberUnder self.now (prefix_of self.now) s → ⊥)
            (λ left. HasBudget self.now left) }
    {
        let least = self.budgets.least[0];
        let whole = 6 * self.size() as u16;
        if least > whole || self.budgets.most[0] < whole {
            return None;
        }
        Some(whole - least)
    }

    /// What the next degree may have of the budget beyond its least, as bits, where so much is
    /// left: its set allows it, and the later degrees may have the rest.
    pub(crate) fn fitting(&self, left: u16) -> u64
        requires room { told self.now < 2 * self.now.table.size }
        requires root { IsAtRoot self.now }
        requires budget { HasBudget self.now left }
        ensures { AreFitting self.now left result }
    {
        let shares = self.next_place().shares;
        self.budgets.fitting(self.degrees.len() + 1, shares, left)
    }

    /// Sets the degrees that follow from those that are set, up to the least chamber of another
    /// cell.
    fn force(&mut self)
        ensures root { IsAtRoot self.new }
        ensures forced { HasForced self.old self.new }
    {
        while self.degrees.len() < self.places.len() {
            let root = self.next_place().root as usize;
            if root == self.degrees.len() {
                return;
            }
            let degree = self.degrees.as_slice()[root];
            self.degrees.push(degree);
        }
    }

    /// Sets the degree of the least chamber of a cell, and the degrees that follow.
    pub(crate) fn enter(&mut self, degree: u8)
        requires room { told self.old < 2 * self.old.table.size }
        requires root { IsAtRoot self.old }
        requires tile { told self.old < self.old.table.size
            → IsChoice self.old.request.faces (next_place self.old).turns degree }
        requires vertex { self.old.table.size ≤ told self.old
            → IsChoice self.old.request.degrees (next_place self.old).turns degree }
        ensures root { IsAtRoot self.new }
        ensures entered { HasEntered self.old degree self.new }
    {
        self.degrees.push(degree);
        self.force();
    }

    /// Returns whether the symbol with the degrees that are set is a member, if its other
    /// conditions hold: only its leastness and what is asked of minimality are open. Most tables
    /// have no ties, and then no symbol is made.
    fn is_asked(&self, m01: &[u8], m12: &[u8]) -> Result<bool, Memory>
        requires { IsSmallSymbol (with_degrees self.now.table m01.now m12.now) }
        ensures { IfOk result (λ yes. IsTrue yes
            ↔ (IsLeastFrom (with_degrees self.now.table m01.now m12.now) self.now.ties.starts.items
            × (IsTrue self.now.request.minimal
            → Minimal (with_degrees self.now.table m01.now m12.now)))) }
    {
        if !self.ties.are_least(self.alloc, &self.table, m01, m12)? {
            return Ok(false);
        }
        if !self.request.minimal {
            return Ok(true);
        }
        let symbol = self.table.with_known_degrees(self.alloc, m01, m12)?;
        is_minimal(self.alloc, &symbol)
    }

    /// Puts the symbol with the degrees that are set at the end of a list. Only the first one of
    /// the table needs the table.
    fn push(&self, list: &mut SymbolList) -> Result<(), Memory>
        requires small { IsSmallSymbol (with_told self.now.table self.now.degrees.items) }
        requires last { HasLast self.now list.old }
        ensures list { OnOk result
            (list.new ≡ list.old ++ with_told self.now.table self.now.degrees.items ∷ []) }
        ensures last { OnOk result (HasLast self.now list.new) }
        ensures same { OnErr result (list.new ≡ list.old) }
    {
        let degrees = self.degrees.as_slice();
        if list.len() > self.first {
            return list.push_alike(degrees);
        }
        list.push(&self.table, degrees)
    }

    /// Adds the member with the degrees that are set, if there is one.
    fn add_member(&self, list: &mut SymbolList) -> Result<(), Memory>
        requires whole { told self.now ≡ 2 * self.now.table.size }
        requires flat { spent_by self.now ≡ 6 * self.now.table.size }
        requires last { HasLast self.now list.old }
        ensures list { OnOk result (Appends (AreUnder (IsMember self.now.request)
            self.now.table.size (prefix_of self.now)) list.old list.new) }
        ensures last { OnOk result (HasLast self.now list.new) }
        ensures same { OnErr result (list.new ≡ list.old) }
    {
        let (m01, m12) = self.degrees.as_slice().split_at(self.size());
        if !self.is_asked(m01, m12)? {
            return Ok(());
        }
        self.push(list)
    }

    /// Sets degrees as long as exactly one share fits. Returns what is then left of the budget, and
    /// the shares of the next degree that fit, if there is one.
    pub(crate) fn go_down(&mut self, left: u16) -> (u16, u64)
        requires root { IsAtRoot self.old }
        requires budget { HasBudget self.old left }
        ensures root { IsAtRoot self.new }
        ensures told { HasTold self.old self.new }
        ensures budget { HasBudget self.new result.0 }
        ensures fitting { told self.new < 2 * self.new.table.size
            → AreFitting self.new result.0 result.1 }
    {
        let mut left = left;
        while self.degrees.len() < self.places.len() {
            let fitting = self.fitting(left);
            if fitting == 0 || fitting & (fitting - 1) != 0 {
                return (left, fitting);
            }
            let share = fitting.trailing_zeros() as u8;
            let place = self.next_place();
            self.enter(place.degree_with(share));
            left -= u16::from(share);
        }
        (left, 0)
    }

    /// Adds the members with the degrees that are set, if `left` of the budget is left beyond the
    /// least of the others. It goes down the cells by the shares that fit, the greatest first,
    /// which has the least branching value.
    pub(crate) fn add_members(
        &mut self,
        fitting: u64,
        left: u16,
        list: &mut SymbolList,
    ) -> Result<(), Memory>
        requires room { told self.old < 2 * self.old.table.size }
        requires root { IsAtRoot self.old }
        requires budget { HasBudget self.old left }
        requires fitting { AreFitting self.old left fitting }
        requires last { HasLast self.old list.old }
        ensures same { OnOk result (self.new ≡ self.old) }
        ensures last { OnOk result (HasLast self.old list.new) }
        ensures list { OnOk result (Appends
            (AreUnder (IsMember self.old.request) self.old.table.size (prefix_of self.old))
            list.old list.new) }
        ensures grown { HasGrown list.old list.new }
    {
        let next = self.degrees.len();
        let place = self.next_place();
        let mut fitting = fitting;
        while fitting != 0 {
            let share = fitting.ilog2() as u8;
            fitting -= 1 << share;
            self.enter(place.degree_with(share));
            let (left, below) = self.go_down(left - u16::from(share));
            if self.degrees.len() < self.places.len() {
                self.add_members(below, left, list)?;
            } else if left == 0 {
                self.add_member(list)?;
            }
            self.degrees.truncate(next);
        }
        Ok(())
    }

    /// Adds all members with the involutions of the table, of which no degree is set.
    pub(crate) fn add_all(&mut self, list: &mut SymbolList) -> Result<(), Memory>
        requires root { IsAtRoot self.old }
        requires none { self.old.degrees.items ≡ [] }
        requires first { self.old.first ≡ length list.old }
        ensures list { OnOk result (Appends (AreUnder (IsMember self.old.request)
            self.old.table.size (prefix_of self.old)) list.old list.new) }
        ensures grown { HasGrown list.old list.new }
    {
        match self.whole_budget() {
            Some(left) => {
                let fitting = self.fitting(left);
                self.add_members(fitting, left, list)
            }
            None => Ok(()),
        }
    }
}
