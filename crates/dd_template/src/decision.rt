ghost use Rattle.std.specs.Prelude.{◌↔◌, IsTrue};
ghost use Rattle.dd_template.specs.Table.{table_of};
ghost use Rattle.dd_template.specs.Lawful.{IsLawful, HaveMoves, HaveEntries};

use crate::tables::Template;
use crate::undone::Undone;
use dd_model::Pair;

/// Returns whether s0 and s2 commute, the parts are joined, and all involutions are used.
fn have_moves<const K: usize>(undone: &Undone<K>) -> bool
    ensures { IsTrue result ↔ HaveMoves (table_of undone.now.table.now) }
{
    undone.commute() && undone.are_joined() && undone.table.are_used()
}

/// Returns whether the entries are those of tiles and vertices, and keep the curvature.
fn have_entries<const K: usize>(undone: &Undone<K>) -> bool
    ensures { IsTrue result ↔ HaveEntries (table_of undone.now.table.now) }
{
    undone.are_constant(Pair::Tile)
        && undone.are_constant(Pair::Vertex)
        && undone.all_fit(Pair::Tile)
        && undone.all_fit(Pair::Vertex)
        && undone.keeps_curvature()
}

/// Returns whether a table of 1 to 64 parts is lawful: its moves lead back, commute and join all
/// parts, and its entries fit them and add up. It takes no memory.
pub fn is_lawful<const K: usize>(template: &Template<K>) -> bool
    ensures { IsTrue result ↔ IsLawful (table_of template.now) }
{
    if K == 0 || K > 64 {
        return false;
    }
    if !template.are_undone() {
        return false;
    }
    let undone = Undone { table: template };
    have_moves(&undone) && have_entries(&undone)
}
