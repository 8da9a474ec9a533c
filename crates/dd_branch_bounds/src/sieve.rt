//! Which numbers may come next at a place of a table.

ghost use Rattle.std.specs.Prelude.{◌≡◌, ℕ, ◌*◌, ◌≤◌, ◌<◌, IsTrue, IfSome, IfNone};
ghost use Rattle.dd_model.specs.Symbol.{Symbol as Tiling};
ghost use Rattle.dd_branch_tables.specs.Chambers.{bit_of};
ghost use Rattle.dd_branch_tables.specs.Rows.{partial_of, HasNumberAt};
ghost use Rattle.dd_model.specs.declared.pair.Pair.TheVariants.{Tile, Vertex};
ghost use Rattle.dd_branch_bounds.specs.Shares.{IsSought};
ghost use Rattle.dd_branch_bounds.specs.Kept.{AreSides};
ghost use Rattle.dd_branch_bounds.specs.Sides.{AreBounds};

use crate::link::Link;
use crate::path_shares::PathShares;
use crate::table_paths::{TablePaths, is_too_small, sets_limits};
use dd_branch_tables::{ChamberSet, PartialTable, index_at};
use dd_model::{Index, Pair};

impl TablePaths {
    /// What the cells of both pairs add at most. A pair that the image at a place of the code does
    /// not change is limited as the request limits it, and only that. Returns None if the pair has
    /// more cells than the request allows.
    fn bounds(&self, classes: &PathShares, table: &PartialTable, place: u8) -> Option<(u64, u64)>
        requires kept { AreSides classes.now (partial_of table.now) self.now }
        ensures none { IfNone result ((s : Tiling)
            → ¬ IsSought classes.now.request (partial_of table.now) s) }
        ensures bounds { IfSome result (λ most.
            AreBounds classes.now.request (partial_of table.now) most.0 most.1) }
    {
        let tiles = self.tiles.total;
        let vertices = self.vertices.total;
        let request = &classes.request;
        let size = table.size();
        match index_at(place) {
            Index::Zero => {
                let corners = &self.vertices.census;
                let Some(most) = corners.limited(request, Pair::Vertex, size, vertices) else {
                    return None;
                };
                Some((tiles, most))
            }
            Index::One => Some((tiles, vertices)),
            Index::Two => {
                let cells = &self.tiles.census;
                let Some(most) = cells.limited(request, Pair::Tile, size, tiles) else {
                    return None;
                };
                Some((most, vertices))
            }
        }
    }

    /// Returns whether it is sure that no wanted symbol completes the table that has a number at a
    /// place of its code. Bounds are given of all that complete the table. The limits of the
    /// request are looked at only if `with_limits` is true.
    #[inline(always)]
    fn is_ruled_out(
        &self,
        classes: &PathShares,
        table: &PartialTable,
        place: u8,
        number: u8,
        bounds: (u64, u64),
        with_limits: bool,
    ) -> bool
        requires place { place < 3 * (partial_of table.now).size }
        requires number { number ≤ 36 }
        requires kept { AreSides classes.now (partial_of table.now) self.now }
        requires bounds { AreBounds classes.now.request (partial_of table.now) bounds.0 bounds.1 }
        ensures { IsTrue result → (s : Tiling)
            → IsSought classes.now.request (partial_of table.now) s
            → ¬ HasNumberAt place number s }
    {
        let link = Link::told(place, number);
        let (tiles, vertices) = self.totals_with(classes, &link, bounds.0, bounds.1);
        if is_too_small(tiles, vertices, table.size()) {
            return true;
        }
        if !with_limits {
            return false;
        }
        let Some((cells, corners)) = self.limited_with(classes, &link, tiles, vertices) else {
            return true;
        };
        is_too_small(cells, corners, table.size())
    }

    /// Returns whether it is sure that no wanted symbol completes the table that has a number at a
    /// place of its code: the shares are then too small.
    pub fn rules_out_number(
        &self,
        classes: &PathShares,
        table: &PartialTable,
        place: u8,
        number: u8,
    ) -> bool
        requires place { place < 3 * (partial_of table.now).size }
        requires number { number ≤ 36 }
        requires kept { AreSides classes.now (partial_of table.now) self.now }
        ensures { IsTrue result → (s : Tiling)
            → IsSought classes.now.request (partial_of table.now) s
            → ¬ HasNumberAt place number s }
    {
        let bounds = (self.tiles.total, self.vertices.total);
        let with_limits = sets_limits(&classes.request);
        self.is_ruled_out(classes, table, place, number, bounds, with_limits)
    }

    /// Returns those of some numbers that are not ruled out at a place of the code. It
    /// takes all numbers at once, since most of what it computes for one, such as the path that
    /// ends at the chamber, is the same for the others.
    #[inline(always)]
    fn sieve_by(
        &self,
        classes: &PathShares,
        table: &PartialTable,
        place: u8,
        numbers: ChamberSet,
        bounds: (u64, u64),
        with_limits: bool,
    ) -> ChamberSet
        requires place { place < 3 * (partial_of table.now).size }
        requires kept { AreSides classes.now (partial_of table.now) self.now }
        requires bounds { AreBounds classes.now.request (partial_of table.now) bounds.0 bounds.1 }
        ensures { (m : ℕ) → bit_of numbers m ≡ 1 → bit_of result m ≡ 0 → (s : Tiling)
            → IsSought classes.now.request (partial_of table.now) s
            → ¬ HasNumberAt place m s }
    {
        let mut kept = ChamberSet::none();
        let mut left = numbers;
        while let Some(number) = left.take_first() {
            if !self.is_ruled_out(classes, table, place, number, bounds, with_limits) {
                kept.insert(number);
            }
        }
        kept
    }

    /// Returns those of some numbers that neither shares nor limits rule out at a place
    /// of the code. It stays a call of its own, so that requests without limits pay nothing for it.
    /// A pair that the image does not change is limited once for all numbers.
    #[inline(never)]
    fn sieve_with_limits(
        &self,
        classes: &PathShares,
        table: &PartialTable,
        place: u8,
        numbers: ChamberSet,
    ) -> ChamberSet
        requires place { place < 3 * (partial_of table.now).size }
        requires kept { AreSides classes.now (partial_of table.now) self.now }
        ensures { (m : ℕ) → bit_of numbers m ≡ 1 → bit_of result m ≡ 0 → (s : Tiling)
            → IsSought classes.now.request (partial_of table.now) s
            → ¬ HasNumberAt place m s }
    {
        let Some(bounds) = self.bounds(classes, table, place) else {
            return ChamberSet::none();
        };
        self.sieve_by(classes, table, place, numbers, bounds, true)
    }

    /// Returns those of some numbers that are not ruled out at a place of the code.
    #[inline(always)]
    pub fn sieve(
        &self,
        classes: &PathShares,
        table: &PartialTable,
        place: u8,
        numbers: ChamberSet,
    ) -> ChamberSet
        requires place { place < 3 * (partial_of table.now).size }
        requires kept { AreSides classes.now (partial_of table.now) self.now }
        ensures { (m : ℕ) → bit_of numbers m ≡ 1 → bit_of result m ≡ 0 → (s : Tiling)
            → IsSought classes.now.request (partial_of table.now) s
            → ¬ HasNumberAt place m s }
    {
        if sets_limits(&classes.request) {
            return self.sieve_with_limits(classes, table, place, numbers);
        }
        let bounds = (self.tiles.total, self.vertices.total);
        self.sieve_by(classes, table, place, numbers, bounds, false)
    }
}
