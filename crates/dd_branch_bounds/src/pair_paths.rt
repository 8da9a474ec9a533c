ghost use Rattle.std.specs.Prelude.{◌≡◌, ◌≢◌, ℕ, ◌+◌, ◌*◌, ◌/◌, ◌%◌, ◌≤◌, ◌<◌, Bool, true, IsFalse, IfSome, IfNone, Some, slice_get};
ghost use Rattle.dd_model.specs.Symbol.{Symbol as Tiling};
ghost use Rattle.dd_branch_bounds.specs.Shares.{IsSought};
ghost use Rattle.dd_branch_bounds.specs.Units.{share_unit};
ghost use Rattle.dd_branch_bounds.specs.Classes.{joined_class};
ghost use Rattle.dd_branch_bounds.specs.Passing.{Passes};
ghost use Rattle.dd_branch_bounds.specs.Sides.{IsSide, IsSideOfSome, IsSumOf, IsCensusOf, IsJoin, ends_of};
ghost use Rattle.dd_branch_bounds.specs.Sides.{class_weight, KeepsBounds};
ghost use Rattle.dd_model.specs.Wanted.{Wanted};

use crate::census::{Census, is_limited};
use crate::class_shares::ClassShares;
use crate::end::End;
use crate::flag_number::FlagNumber;
use crate::path_class::PathClass;
use dd_model::Pair;

/// The paths of a pair in a table that a search fills, kept at their ends, and the sum of the
/// shares of all chambers. A flag is twice a chamber, and 1 more for the second involution of the
/// pair. It is an end of a path if its image is not known.
#[derive(Clone, Copy, Drop)]
pub(crate) struct PairPaths {
    ends: [End; 74],
    pub(crate) total: u64,
    pub(crate) census: Census,
}

impl PairPaths {
    /// The paths of tables of which nothing is known: each chamber is one.
    pub(crate) fn start(shares: &ClassShares) -> PairPaths
        ensures { (partial : Tiling) → partial.size ≡ shares.now.size
            → IsSide shares.now partial result }
    {
        let size = shares.size;
        let class = PathClass::of(1);
        let mut ends = [End::none(); 74];
        for k in 0..size {
            let flag = 2 * (k + 1);
            ends[usize::from(flag)] = End {
                other: flag + 1,
                class,
            };
            ends[usize::from(flag + 1)] = End { other: flag, class };
        }
        let total = u64::from(size) * shares.weight(class);
        PairPaths {
            ends,
            total,
            census: Census::none(),
        }
    }

    /// What stands at a flag.
    fn end(&self, flag: FlagNumber) -> End
        ensures { slice_get self.now.ends flag.number ≡ Some result }
    {
        self.ends[usize::from(flag.number)]
    }

    /// The total where paths that had so much have become one that has so much.
    fn total_after(&self, had: u64, has: u64) -> u64
        requires total { self.now.total ≤ 36 * share_unit }
        requires had { had ≤ self.now.total }
        requires has { has ≤ 64 * share_unit }
        ensures { result + had ≡ self.now.total + has }
    {
        self.total - had + has
    }

    /// The total where two flags are joined.
    #[inline(always)]
    pub(crate) fn total_with(&self, shares: &ClassShares, x: FlagNumber, y: FlagNumber) -> u64
        requires some { IsSideOfSome shares.now self.now }
        ensures total { (partial : Tiling) (test : Tiling → Bool)
            → IsJoin (Passes partial test) shares.now.pair x.number y.number
            → IsSide shares.now partial self.now
            → IsSumOf shares.now partial test result }
        ensures small { result ≤ 36 * share_unit }
    {
        let end = self.end(x);
        let one = end.class;
        if one.chambers() == 0 {
            return self.total;
        }
        let had = shares.weight(one);
        if x.number == y.number {
            return self.total_after(had, shares.capped(one));
        }
        if end.other == y.number {
            return self.total_after(had, shares.closed(one));
        }
        let other = self.end(y).class;
        if other.chambers() == 0 {
            return self.total;
        }
        self.total_after(had + shares.weight(other), shares.joined(one, other))
    }

    /// The census where two flags are joined.
    pub(crate) fn census_with(&self, shares: &ClassShares, x: FlagNumber, y: FlagNumber) -> Census
        requires some { IsSideOfSome shares.now self.now }
        ensures { (partial : Tiling) (test : Tiling → Bool)
            → IsJoin (Passes partial test) shares.now.pair x.number y.number
            → IsSide shares.now partial self.now
            → IsCensusOf shares.now partial test result }
    {
        let mut census = self.census;
        let end = self.end(x);
        let one = end.class;
        if one.chambers() == 0 {
            return census;
        }
        if x.number == y.number {
            census.add_fixed_end(one, shares.capped(one));
            return census;
        }
        if end.other == y.number {
            census.add_cell(one, shares.closed(one));
            return census;
        }
        let other = self.end(y).class;
        if other.chambers() == 0 {
            return census;
        }
        census.add_joined(one, other, shares.joined(one, other));
        census
    }

    /// What the cells of the pair add at most where two flags are joined and a bound is given, or
    /// None if there are then more cells than the request allows. If the request does not limit the
    /// pair, no census is looked at.
    #[inline(always)]
    pub(crate) fn limited_with(
        &self,
        shares: &ClassShares,
        pair: Pair,
        x: FlagNumber,
        y: FlagNumber,
        bound: u64,
    ) -> Option<u64>
        requires same { shares.now.pair ≡ pair }
        requires some { IsSideOfSome shares.now self.now }
        ensures none { IfNone result ((partial : Tiling) (test : Tiling → Bool)
            → IsJoin (Passes partial test) pair x.number y.number
            → IsSide shares.now partial self.now
            → (s : Tiling) → Wanted shares.now.request s → ¬ Passes partial test s) }
        ensures bound { IfSome result (λ most. (partial : Tiling) (test : Tiling → Bool)
            → IsJoin (Passes partial test) pair x.number y.number
            → IsSide shares.now partial self.now
            → KeepsBounds shares.now.request partial test pair bound most) }
        ensures few { IfSome result (λ most. most ≤ bound) }
    {
        if !is_limited(&shares.request, pair) {
            return Some(bound);
        }
        let census = self.census_with(shares, x, y);
        let Some(most) = census.limited(&shares.request, pair, shares.size, bound) else {
            return None;
        };
        Some(most)
    }

    /// Fixes the end of a path, which closes it where the other one is fixed. False where no wanted
    /// symbol completes the table, since the request allows the closed path no degree.
    #[inline(always)]
    fn cap(&mut self, shares: &ClassShares, x: FlagNumber) -> bool
        requires some { IsSideOfSome shares.now self.old }
        requires live { 1 ≤ (ends_of shares.now self.old x.number).chambers }
        ensures side { (partial : Tiling)
            → IsJoin (Passes partial (λ _. true)) shares.now.pair x.number x.number
            → IsSide shares.now partial self.old → IsSide shares.now partial self.new }
        ensures dead { IsFalse result → (partial : Tiling)
            → IsJoin (Passes partial (λ _. true)) shares.now.pair x.number x.number
            → IsSide shares.now partial self.old → (s : Tiling)
            → ¬ IsSought shares.now.request partial s }
    {
        let end = self.end(x);
        let class = end.class;
        let fixed = shares.capped(class);
        self.total = self.total_after(shares.weight(class), fixed);
        self.ends[usize::from(x.number)] = End::none();
        self.ends[usize::from(end.other)] = end.beyond(x.number, class.capped());
        self.census.add_fixed_end(class, fixed);
        fixed != 0
    }

    /// Joins the ends of two paths, which closes them where the other ends are fixed. False where
    /// no wanted symbol completes the table, since the request allows the closed path no degree.
    #[inline(always)]
    fn connect(&mut self, shares: &ClassShares, x: FlagNumber, y: FlagNumber) -> bool
        requires some { IsSideOfSome shares.now self.old }
        requires first_end { 1 ≤ (ends_of shares.now self.old x.number).chambers }
        requires second_end { 1 ≤ (ends_of shares.now self.old y.number).chambers }
        requires apart { y.number ≢ x.number }
        requires no_other { y.number ≢ (ends_of shares.now self.old x.number).other }
        ensures side { (partial : Tiling)
            → IsJoin (Passes partial (λ _. true)) shares.now.pair x.number y.number
            → IsSide shares.now partial self.old → IsSide shares.now partial self.new }
        ensures dead { IsFalse result → (partial : Tiling)
            → IsJoin (Passes partial (λ _. true)) shares.now.pair x.number y.number
            → IsSide shares.now partial self.old → (s : Tiling)
            → ¬ IsSought shares.now.request partial s }
    {
        let one = self.end(x);
        let other = self.end(y);
        let class = one.class.joined(other.class);
        let together = shares.joined(one.class, other.class);
        let had = shares.weight(one.class) + shares.weight(other.class);
        self.total = self.total_after(had, together);
        self.ends[usize::from(x.number)] = End::none();
        self.ends[usize::from(y.number)] = End::none();
        self.ends[usize::from(one.other)] = one.beyond(other.other, class);
        self.ends[usize::from(other.other)] = other.beyond(one.other, class);
        self.census.add_joined(one.class, other.class, together);
        together != 0
    }

    /// Joins the two ends of a path, which closes it. False where no wanted symbol completes the
    /// table, since the request allows the closed path no degree.
    fn close(&mut self, shares: &ClassShares, x: FlagNumber, mate: FlagNumber) -> bool
        requires some { IsSideOfSome shares.now self.old }
        requires live { 1 ≤ (ends_of shares.now self.old x.number).chambers }
        requires apart { mate.number ≢ x.number }
        requires other { mate.number ≡ (ends_of shares.now self.old x.number).other }
        ensures side { (partial : Tiling)
            → IsJoin (Passes partial (λ _. true)) shares.now.pair x.number mate.number
            → IsSide shares.now partial self.old → IsSide shares.now partial self.new }
        ensures dead { IsFalse result → (partial : Tiling)
            → IsJoin (Passes partial (λ _. true)) shares.now.pair x.number mate.number
            → IsSide shares.now partial self.old → (s : Tiling)
            → ¬ IsSought shares.now.request partial s }
    {
        let class = self.end(x).class;
        let whole = shares.closed(class);
        self.total = self.total_after(shares.weight(class), whole);
        self.ends[usize::from(x.number)] = End::none();
        self.ends[usize::from(mate.number)] = End::none();
        self.census.add_cell(class, whole);
        whole != 0
    }

    /// Joins two flags of which one is led to the other. False where no wanted symbol completes the
    /// table, since the request allows their cell no degree.
    #[inline(always)]
    pub(crate) fn join(&mut self, shares: &ClassShares, x: FlagNumber, y: FlagNumber) -> bool
        requires some { IsSideOfSome shares.now self.old }
        ensures side { (partial : Tiling)
            → IsJoin (Passes partial (λ _. true)) shares.now.pair x.number y.number
            → IsSide shares.now partial self.old → IsSide shares.now partial self.new }
        ensures dead { IsFalse result → (partial : Tiling)
            → IsJoin (Passes partial (λ _. true)) shares.now.pair x.number y.number
            → IsSide shares.now partial self.old → (s : Tiling)
            → ¬ IsSought shares.now.request partial s }
    {
        let one = self.end(x);
        if one.class.chambers() == 0 {
            return true;
        }
        if x.number == y.number {
            return self.cap(shares, x);
        }
        if one.other == y.number {
            return self.close(shares, x, y);
        }
        if self.end(y).class.chambers() == 0 {
            return true;
        }
        self.connect(shares, x, y)
    }
}
