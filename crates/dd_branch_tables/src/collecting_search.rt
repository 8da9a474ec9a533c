ghost use Rattle.std.specs.Prelude.{◌≡◌, ◌≤◌, OnOk, length};
ghost use Rattle.dd_front_jobs.specs.Under.{AreUnder, Appends};
ghost use Rattle.dd_branch_tables.specs.Growth.{HasGrown};

use crate::prefix_search::PrefixSearch;
use crate::search_steps::{advance, begin, go_back};
use dd_member_lists::SymbolList;
use dd_model::Memory;

/// A search that collects what is under whole prefixes.
pub trait CollectingSearch: PrefixSearch {
    /// Adds what is under a whole prefix.
    fn add(&mut self, list: &mut SymbolList) -> Result<(), Memory>
        requires valid { Self.laws.valid self.old }
        requires whole { length (Self.laws.prefix self.old)
            ≡ Self.laws.end (Self.laws.size self.old) }
        ensures same { OnOk result (self.new ≡ self.old) }
        ensures list { OnOk result (Appends
            (AreUnder (Self.laws.wanted (Self.laws.request self.old)) (Self.laws.size self.old)
            (Self.laws.prefix self.old))
            list.old list.new) }
        ensures grown { HasGrown list.old list.new };
}

/// Adds what is under the prefix of a search. `Err` comes only if an allocation fails. The list
/// then has what it had, perhaps with more behind it, and the search stands anywhere: neither is of
/// use any more.
pub fn find<T: CollectingSearch>(search: &mut T, list: &mut SymbolList) -> Result<(), Memory>
    requires valid { T.laws.valid search.old }
    requires short { length (T.laws.prefix search.old) ≤ T.laws.end (T.laws.size search.old) }
    ensures same { OnOk result (search.new ≡ search.old) }
    ensures list { OnOk result (Appends
        (AreUnder (T.laws.wanted (T.laws.request search.old)) (T.laws.size search.old)
        (T.laws.prefix search.old))
        list.old list.new) }
    ensures grown { HasGrown list.old list.new }
{
    if search.is_whole() {
        return search.add(list);
    }
    let mut levels = begin(search);
    while advance(search, &mut levels) {
        search.add(list)?;
        go_back(search, &mut levels);
    }
    Ok(())
}
