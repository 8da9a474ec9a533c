ghost use Rattle.std.specs.Prelude.{◌≡◌, ◌≤◌, length};
ghost use Rattle.dd_template.specs.Moves.{AreUndone};
ghost use Rattle.dd_template.specs.Table.{table_of};

use crate::tables::Template;

/// A table of 1 to 64 parts in which all moves lead back.
#[derive(Drop)]
pub(crate) struct Undone<'a, const K: usize> {
    /// The table.
    pub(crate) table: &'a Template<K>,
    ghost some: { 1 ≤ K },
    ghost few: { K ≤ 64 },
    ghost faces: { length table.now.face ≡ K },
    ghost degrees: { length table.now.degree ≡ K },
    ghost undone: { AreUndone (table_of table.now) },
}
