ghost use Rattle.std.specs.Prelude.{◌≡◌, ◌+◌, ◌*◌, ◌≤◌, ◌<◌, Bool, IsTrue, IsFalse, IfSome, IfNone};
ghost use Rattle.dd_model.specs.Partial.{Completes};
ghost use Rattle.dd_model.specs.Symbol.{Symbol as Tiling};
ghost use Rattle.dd_branch_tables.specs.Rows.{partial_of};
ghost use Rattle.dd_model.specs.Wanted.{Wanted};
ghost use Rattle.dd_model.specs.declared.pair.Pair.TheVariants.{Tile, Vertex};
ghost use Rattle.dd_branch_bounds.specs.Counted.{HasCounted};
ghost use Rattle.dd_branch_bounds.specs.Shares.{BoundsReciprocals, IsSought};
ghost use Rattle.dd_branch_bounds.specs.Units.{share_unit};
ghost use Rattle.dd_branch_bounds.specs.Kept.{AreSides, AreSidesOfSome, IsImage};
ghost use Rattle.dd_branch_bounds.specs.Passing.{Passes};
ghost use Rattle.dd_branch_bounds.specs.Sides.{KeepsBounds};

use crate::census::Census;
use crate::degrees::SHARE_UNIT;
use crate::link::Link;
use crate::pair_paths::PairPaths;
use crate::path_shares::PathShares;
use dd_branch_tables::PartialTable;
use dd_model::{Index, Pair, Request};

/// The paths of both pairs of a table that a search fills, with two shares for each chamber, one
/// for each pair. The share of a chamber is SHARE_UNIT divided by the least degree that a request
/// allows and that its path has room for, rounded up. Flat symbols have large shares, so that a
/// search can turn back where their sum is too small. A search copies the paths before it puts a
/// number in, so that it can go back; no call allocates.
#[derive(Clone, Copy, Drop)]
pub struct TablePaths {
    pub(crate) tiles: PairPaths,
    pub(crate) vertices: PairPaths,
}

impl TablePaths {
    /// Returns the paths of a table of which only the size is known.
    pub fn start(classes: &PathShares) -> TablePaths
        ensures { (partial : Tiling) → partial.size ≡ classes.now.size
            → AreSides classes.now partial result }
    {
        TablePaths {
            tiles: PairPaths::start(&classes.tiles),
            vertices: PairPaths::start(&classes.vertices),
        }
    }

    /// What the cells of both pairs add at most where an image becomes known: their totals then. A
    /// pair that the image does not change keeps the bound that is given for it.
    #[inline(always)]
    pub(crate) fn totals_with(
        &self,
        classes: &PathShares,
        link: &Link,
        tiles: u64,
        vertices: u64,
    ) -> (u64, u64)
        requires some { AreSidesOfSome classes.now self.now }
        requires tiles { tiles ≤ 36 * share_unit }
        requires vertices { vertices ≤ 36 * share_unit }
        ensures tiles { (partial : Tiling) (test : Tiling → Bool)
            → AreSides classes.now partial self.now → IsImage (Passes partial test) link.now
            → KeepsBounds classes.now.request partial test Tile tiles result.0 }
        ensures vertices { (partial : Tiling) (test : Tiling → Bool)
            → AreSides classes.now partial self.now → IsImage (Passes partial test) link.now
            → KeepsBounds classes.now.request partial test Vertex vertices result.1 }
        ensures few_tiles { result.0 ≤ 36 * share_unit }
        ensures few_vertices { result.1 ≤ 36 * share_unit }
    {
        let first = link.flags(0);
        let second = link.flags(1);
        let sides = self;
        match link.index {
            Index::Zero => (
                sides.tiles.total_with(&classes.tiles, first.0, first.1),
                vertices,
            ),
            Index::One => (
                sides.tiles.total_with(&classes.tiles, second.0, second.1),
                sides
                    .vertices
                    .total_with(&classes.vertices, first.0, first.1),
            ),
            Index::Two => (
                tiles,
                sides
                    .vertices
                    .total_with(&classes.vertices, second.0, second.1),
            ),
        }
    }

    /// What the cells of both pairs add at most where an image becomes known and bounds are given.
    /// Returns None if there are then more cells than the request allows. A census is looked at
    /// only if the image changes it, and the request limits the pair.
    #[inline(always)]
    pub(crate) fn limited_with(
        &self,
        classes: &PathShares,
        link: &Link,
        tiles: u64,
        vertices: u64,
    ) -> Option<(u64, u64)>
        requires some { AreSidesOfSome classes.now self.now }
        ensures none { IfNone result ((partial : Tiling) (test : Tiling → Bool)
            → AreSides classes.now partial self.now → IsImage (Passes partial test) link.now
            → (s : Tiling) → Wanted classes.now.request s → ¬ Passes partial test s) }
        ensures tiles { IfSome result (λ most. (partial : Tiling) (test : Tiling → Bool)
            → AreSides classes.now partial self.now → IsImage (Passes partial test) link.now
            → KeepsBounds classes.now.request partial test Tile tiles most.0) }
        ensures vertices { IfSome result (λ most. (partial : Tiling) (test : Tiling → Bool)
            → AreSides classes.now partial self.now → IsImage (Passes partial test) link.now
            → KeepsBounds classes.now.request partial test Vertex vertices most.1) }
        ensures few_tiles { IfSome result (λ most. most.0 ≤ tiles) }
        ensures few_vertices { IfSome result (λ most. most.1 ≤ vertices) }
    {
        let first = link.flags(0);
        let second = link.flags(1);
        match link.index {
            Index::Zero => {
                let (side, own) = (&self.tiles, &classes.tiles);
                let Some(most) = side.limited_with(own, Pair::Tile, first.0, first.1, tiles) else {
                    return None;
                };
                Some((most, vertices))
            }
            Index::One => {
                let (side, own) = (&self.tiles, &classes.tiles);
                let Some(cells) = side.limited_with(own, Pair::Tile, second.0, second.1, tiles)
                else {
                    return None;
                };
                let (side, own) = (&self.vertices, &classes.vertices);
                let Some(most) = side.limited_with(own, Pair::Vertex, first.0, first.1, vertices)
                else {
                    return None;
                };
                Some((cells, most))
            }
            Index::Two => {
                let (side, own) = (&self.vertices, &classes.vertices);
                let Some(most) = side.limited_with(own, Pair::Vertex, second.0, second.1, vertices)
                else {
                    return None;
                };
                Some((tiles, most))
            }
        }
    }

    /// Joins the paths between which an image leads. False where it is sure that no wanted symbol
    /// completes a table with that image.
    pub(crate) fn join(&mut self, classes: &PathShares, link: &Link) -> bool
        requires some { AreSidesOfSome classes.now self.old }
        ensures kept { (partial : Tiling) → IsImage (Completes partial) link.now
            → AreSides classes.now partial self.old → AreSides classes.now partial self.new }
        ensures dead { IsFalse result → (partial : Tiling) → IsImage (Completes partial) link.now
            → AreSides classes.now partial self.old → (s : Tiling)
            → ¬ IsSought classes.now.request partial s }
    {
        let first = link.flags(0);
        let second = link.flags(1);
        let tiles = &mut self.tiles;
        let vertices = &mut self.vertices;
        match link.index {
            Index::Zero => tiles.join(&classes.tiles, first.0, first.1),
            Index::One => {
                tiles.join(&classes.tiles, second.0, second.1)
                    && vertices.join(&classes.vertices, first.0, first.1)
            }
            Index::Two => vertices.join(&classes.vertices, second.0, second.1),
        }
    }

    /// Joins the paths that what was put into the table after a mark joins. True where a cell is
    /// then whole to which the request allows no degree, so that no wanted symbol completes the
    /// table.
    pub fn learn(&mut self, classes: &PathShares, table: &PartialTable, mark: usize) -> bool
        requires kept { AreSides classes.now (partial_of table.now) self.old }
        ensures kept { AreSides classes.now (partial_of table.now) self.new }
        ensures dead { IsTrue result → (s : Tiling)
            → ¬ IsSought classes.now.request (partial_of table.now) s }
    {
        for place in table.filled(mark) {
            let link = Link::told(*place, table.number_at(*place));
            if !self.join(classes, &link) {
                return true;
            }
        }
        false
    }

    /// Returns whether the totals are too small.
    fn are_too_small(&self, classes: &PathShares, table: &PartialTable) -> bool
        requires kept { AreSides classes.now (partial_of table.now) self.now }
        ensures { IsTrue result → (s : Tiling)
            → ¬ IsSought classes.now.request (partial_of table.now) s }
    {
        is_too_small(self.tiles.total, self.vertices.total, table.size())
    }

    /// Returns whether it is sure that no wanted symbol completes the table: the shares are too
    /// small, where the limits of the request are looked at, too, or there are more cells than
    /// these allow.
    pub fn rules_out(&self, classes: &PathShares, table: &PartialTable) -> bool
        requires kept { AreSides classes.now (partial_of table.now) self.now }
        ensures { IsTrue result → (s : Tiling)
            → ¬ IsSought classes.now.request (partial_of table.now) s }
    {
        if self.are_too_small(classes, table) {
            return true;
        }
        if !sets_limits(&classes.request) {
            return false;
        }
        exceed(
            &classes.request,
            table.size(),
            &self.tiles.census,
            self.tiles.total,
            &self.vertices.census,
            self.vertices.total,
        )
    }
}

/// Returns whether a request limits the number of tiles or of vertices.
pub(crate) fn sets_limits(request: &Request) -> bool {
    request.tiles != 0 || request.vertices != 0
}

/// Returns true only if no table is that of a wanted symbol: the censuses of both pairs have more
/// cells than the limits of the request allow, or the totals are too small.
fn exceed(
    request: &Request,
    size: u8,
    tiles: &Census,
    tile_total: u64,
    vertices: &Census,
    vertex_total: u64,
) -> bool
    requires tile_total { tile_total ≤ 36 * share_unit }
    requires vertex_total { vertex_total ≤ 36 * share_unit }
    ensures { IsTrue result → (s : Tiling) → s.size ≡ size → Wanted request.now s
        → HasCounted s Tile tiles.now → HasCounted s Vertex vertices.now
        → BoundsReciprocals s Tile tile_total → ¬ BoundsReciprocals s Vertex vertex_total }
{
    let Some(tiles) = tiles.limited(request, Pair::Tile, size, tile_total) else {
        return true;
    };
    let Some(vertices) = vertices.limited(request, Pair::Vertex, size, vertex_total) else {
        return true;
    };
    is_too_small(tiles, vertices, size)
}

/// Returns whether two totals are less than those of a flat symbol of a size.
pub(crate) fn is_too_small(tiles: u64, vertices: u64, size: u8) -> bool
    requires tiles { tiles ≤ 36 * share_unit }
    requires vertices { vertices ≤ 36 * share_unit }
    ensures { IsTrue result → 2 * (tiles + vertices) < size * share_unit }
{
    tiles + vertices < u64::from(size) * (SHARE_UNIT / 2)
}
