ghost use Rattle.std.specs.Prelude.{◌≡◌, ◌⊎◌, ◌+◌, ◌%◌, ◌*◌, ◌<◌, ◌≤◌, IfSome, IfNone};
ghost use Rattle.std.specs.Bool.{OnTrue, OnFalse};
ghost use Rattle.dd_model.specs.Symbol.{Symbol as Tiling};
ghost use Rattle.dd_model.specs.Wanted.{AtMost, Wanted};
ghost use Rattle.dd_model.specs.declared.pair.Pair.TheVariants.{Tile, Vertex};
ghost use Rattle.dd_branch_bounds.specs.Shares.{BoundsReciprocals};
ghost use Rattle.dd_branch_bounds.specs.Units.{share_unit};

use crate::degrees::SHARE_UNIT;
use crate::path_class::PathClass;
use dd_model::{Pair, Request};

/// How many whole cells and how many fixed flags a census has at most. A table has no more.
const CELLS: u32 = 36;

const FLAGS: u32 = 72;

/// Returns the most cells of a pair that are asked for; 0 sets no limit.
fn limit_of(request: &Request, pair: Pair) -> u32
    ensures { 1 ≤ result → (s : Tiling) → Wanted request.now s → AtMost s pair result }
{
    match pair {
        Pair::Tile => request.tiles,
        Pair::Vertex => request.vertices,
        Pair::Edge => 0,
    }
}

/// Returns whether a request limits the cells of a pair.
pub(crate) fn is_limited(request: &Request, pair: Pair) -> bool {
    limit_of(request, pair) != 0
}

/// What is known of the cells of a pair in a table. It counts the whole cells, how many of them are
/// chains, their chambers, and what they add at most. It also has how often an involution of the
/// pair is known to fix a chamber.
#[derive(Clone, Copy, Drop)]
pub(crate) struct Census {
    cells: u32,
    chains: u32,
    chambers: u32,
    fixed: u32,
    most: u64,
    ghost few_cells: { cells ≤ 36 },
    ghost few_chains: { chains ≤ cells },
    ghost few_chambers: { chambers ≤ 64 * cells },
    ghost few_flags: { fixed ≤ 72 },
    ghost low: { most ≤ cells * (64 * share_unit) },
}

impl Census {
    ghost use Rattle.dd_branch_bounds.specs.Census.{IsNone, HasFlag, HasCell};
    ghost use Rattle.dd_branch_bounds.specs.Census.{HasFixedEnd, HasJoined, HasRoom};
    ghost use Rattle.dd_branch_bounds.specs.Counted.{HasCounted};

    /// The census of a table of which nothing is known.
    pub(crate) fn none() -> Census
        ensures { IsNone result }
    {
        Census {
            cells: 0,
            chains: 0,
            chambers: 0,
            fixed: 0,
            most: 0,
        }
    }

    /// Counts a fixed flag.
    fn add_flag(&mut self)
        ensures { HasFlag self.old self.new }
    {
        if self.fixed >= FLAGS {
            return;
        }
        self.fixed += 1;
    }

    /// Counts a whole cell with the chambers of a path of a class, which add at most `most`.
    pub(crate) fn add_cell(&mut self, class: PathClass, most: u64)
        requires { most ≤ 64 * share_unit }
        ensures { HasCell self.old class.number most self.new }
    {
        if self.cells >= CELLS {
            return;
        }
        self.cells += 1;
        self.chambers += u32::from(class.chambers());
        self.most += most;
        if class.is_capped() {
            self.chains += 1;
        }
    }

    /// Counts what an involution has fixed at the end of a path: a flag, and the path as a whole
    /// cell if its other end is fixed.
    pub(crate) fn add_fixed_end(&mut self, class: PathClass, most: u64)
        requires { most ≤ 64 * share_unit }
        ensures { HasFixedEnd self.old class.number most self.new }
    {
        self.add_flag();
        if class.is_capped() {
            self.add_cell(class, most);
        }
    }

    /// Counts two paths whose ends an involution has joined as a whole cell, if both other ends are
    /// fixed.
    pub(crate) fn add_joined(&mut self, one: PathClass, other: PathClass, most: u64)
        requires most { most ≤ 64 * share_unit }
        requires few { one.number % 64 + other.number % 64 < 64 }
        ensures { HasJoined self.old one.number other.number most self.new }
    {
        if one.is_capped() && other.is_capped() {
            self.add_cell(one.joined(other), most);
        }
    }

    /// Returns whether there are more cells than a limit allows: more are whole, or as many are and
    /// leave chambers over.
    fn exceeds(&self, limit: u32, size: u8) -> bool
        ensures over { OnTrue result ((s : Tiling) (p : Pair) → s.size ≡ size
            → ¬ HasRoom s p self.now limit) }
        ensures within { OnFalse result (self.now.cells ≤ limit) }
    {
        self.cells > limit || self.cells == limit && self.chambers < u32::from(size)
    }

    /// What all cells add at most; None where there are more than a limit allows.
    fn bound(&self, limit: u32, size: u8) -> Option<u64>
        requires { limit ≤ 36 }
        ensures none { IfNone result ((s : Tiling) (p : Pair) → s.size ≡ size
            → ¬ HasRoom s p self.now limit) }
        ensures some { IfSome result (λ most. (s : Tiling) (p : Pair) → s.size ≡ size
            → HasRoom s p self.now limit → BoundsReciprocals s p most) }
    {
        if self.exceeds(limit, size) {
            return None;
        }
        let left = limit - self.cells;
        let chains = (self.fixed + 1) / 2;
        if chains > self.chains + left {
            return None;
        }
        Some(self.most + u64::from(self.chains + 2 * left - chains) * SHARE_UNIT)
    }

    /// Returns a total of a pair, or less where a request sets a limit: whole cells add what they
    /// add, a further chain at most SHARE_UNIT, and a further cycle at most twice that. Returns
    /// None if there are more cells than the limit allows.
    #[inline(always)]
    pub(crate) fn limited(&self, request: &Request, pair: Pair, size: u8, total: u64) -> Option<u64>
        requires { (pair ≡ Tile) ⊎ (pair ≡ Vertex) }
        ensures none { IfNone result ((s : Tiling) → s.size ≡ size → Wanted request.now s
            → ¬ HasCounted s pair self.now) }
        ensures bound { IfSome result (λ most. (s : Tiling) → s.size ≡ size → Wanted request.now s
            → HasCounted s pair self.now → BoundsReciprocals s pair total
            → BoundsReciprocals s pair most) }
        ensures few { IfSome result (λ most. most ≤ total) }
    {
        let limit = limit_of(request, pair);
        if limit == 0 || limit > 36 {
            return Some(total);
        }
        let Some(bound) = self.bound(limit, size) else {
            return None;
        };
        Some(bound.min(total))
    }
}
