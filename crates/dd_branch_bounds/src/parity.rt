ghost use Rattle.std.specs.Prelude.{IsTrue};
ghost use Rattle.dd_model.specs.Symbol.{Symbol as Tiling};
ghost use Rattle.dd_model.specs.Partial.{Completes};
ghost use Rattle.dd_model.specs.FirstVisit.{LeastTable};
ghost use Rattle.dd_branch_tables.specs.Rows.{partial_of};

use dd_branch_tables::PartialTable;
use dd_model::Index;

/// Returns whether it is sure that no least table completes the table: its size is odd, and s0
/// moves chamber 1.
pub fn parity_rules_out(table: &PartialTable) -> bool
    ensures { IsTrue result → (s : Tiling) → Completes (partial_of table.now) s → ¬ LeastTable s }
{
    table.size() % 2 == 1 && table.known(Index::Zero, 1) > 1
}
