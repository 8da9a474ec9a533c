ghost use Rattle.std.specs.Prelude.{◌≡◌, ◌⊎◌, ◌≤◌, ℕ};
ghost use Rattle.dd_model.specs.Symbol.{Symbol as Tiling};
ghost use Rattle.dd_model.specs.Wanted.{AtMost, Wanted};
ghost use Rattle.dd_model.specs.declared.pair.Pair.{Pair};
ghost use Rattle.dd_model.specs.declared.pair.Pair.TheVariants.{Tile, Vertex};
ghost use Rattle.dd_model.specs.declared.requests.Request.{Request};
ghost use Rattle.dd_branch_tables.specs.Rows.{partial_of, depth_of, unwound};
ghost use Rattle.dd_branch_tables.specs.declared.partial_table.PartialTable.{PartialTable};
ghost use Rattle.dd_branch_bounds.specs.Census.{HasRoom};
ghost use Rattle.dd_branch_bounds.specs.Counted.{HasCounted};
ghost use Rattle.dd_branch_bounds.specs.Kept.{Shares, AreKept};
ghost use Rattle.dd_branch_bounds.specs.declared.census.Census.{Census};

/// The shares of a table are shares of each table that it is filled to.
pub fn shares_stay_while_a_table_is_filled()
    ensures { (old new : PartialTable) (shares : Shares) → new.size ≡ old.size
        → unwound new (depth_of old) ≡ old
        → AreKept (partial_of old) shares → AreKept (partial_of new) shares }
{}

/// Let a request set a limit. Then what was counted of a wanted symbol, one chamber of each whole
/// cell and some fixed flags, says:
///
/// - No more cells are whole than the limit.
/// - If as many cells are whole as the limit, each chamber is in one of them.
/// - The sum of 1/m is at most what whole cells add, 1 for each further chain and 2 for each
///   further cycle.
pub fn whole_cells_count()
    ensures { (q : Request) (p : Pair) (c : Census) (limit : ℕ) → (p ≡ Tile) ⊎ (p ≡ Vertex)
        → ((s : Tiling) → Wanted q s → AtMost s p limit) → 1 ≤ limit
        → (s : Tiling) → Wanted q s → HasCounted s p c → HasRoom s p c limit }
{}
