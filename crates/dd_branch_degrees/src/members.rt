ghost use Rattle.std.specs.Prelude.{IfOk, OnOk};
ghost use Rattle.dd_canon.specs.Ties.{AreTies};
ghost use Rattle.dd_branch_tables.specs.Table.{AreOfTable, IsBareTable};
ghost use Rattle.dd_front_jobs.specs.Under.{Appends};
ghost use Rattle.dd_branch_tables.specs.Growth.{HasGrown};
ghost use Rattle.dd_model.specs.Involutions.{HaveSameInvolutions};
ghost use Rattle.dd_branch_degrees.specs.Members.{AreMembersWith};
ghost use Rattle.dd_branch_degrees.specs.Place.{ArePlaces};

use crate::assignment::Assignment;
use crate::limits::has_limits;
use crate::places::{DegreeSlot, all_places, turns_of};
use crate::table::Table;
use crate::ties::Ties;
use arrayvec::ArrayVec;
use dd_canon::tied_starts;
use dd_member_lists::SymbolList;
use dd_model::{Memory, Request};
use dd_symbol::Involutions;
use std::alloc::Global;

/// Returns the table with these involutions, which are known to be those of a table, and what it
/// decides of its degrees. Each cell is walked once: the degrees of a table are the numbers of
/// turns of its cells.
pub fn with_places(
    involutions: Involutions,
    q: &Request,
) -> Result<(Table, ArrayVec<DegreeSlot, 72>), Memory>
    requires { AreOfTable involutions }
    ensures table { IfOk result (λ both. IsBareTable both.0) }
    ensures same { IfOk result (λ both. HaveSameInvolutions involutions both.0) }
    ensures places { IfOk result (λ both. ArePlaces q.now both.0 both.1.items) }
{
    let places = all_places(&involutions, q);
    let turns = turns_of(&places);
    let (m01, m12) = turns.as_slice().split_at(involutions.size() as usize);
    let table = Table::known(involutions, m01, m12)?;
    Ok((table, places))
}

/// Adds all members of a request's catalogue that have the involutions of a table, ascending.
/// `places` is what the table decides of its degrees, and `ties` are the chambers from which it may
/// be numbered as it is.
pub fn add_tied(
    alloc: Global,
    t: Table,
    ties: Vec<u32>,
    places: ArrayVec<DegreeSlot, 72>,
    q: &Request,
    list: &mut SymbolList,
) -> Result<(), Memory>
    requires ties { AreTies t ties.items }
    requires places { ArePlaces q.now t places.items }
    ensures list { OnOk result (Appends (AreMembersWith q.now t) list.old list.new) }
    ensures grown { HasGrown list.old list.new }
{
    let table = t.into_symbol();
    if !has_limits(&table, places.as_slice(), q) {
        return Ok(());
    }
    let ties = Ties::of(alloc, table.symbol(), ties)?;
    Assignment::new(alloc, table, ties, places, q, list.len()).add_all(list)
}

/// Adds all members of a request's catalogue that have the involutions of a table, ascending. `Err`
/// comes only if an allocation fails. The list then has what it had, perhaps with more behind it.
pub fn add_members_of(
    alloc: Global,
    t: Table,
    q: &Request,
    list: &mut SymbolList,
) -> Result<(), Memory>
    ensures list { OnOk result (Appends (AreMembersWith q.now t) list.old list.new) }
    ensures grown { HasGrown list.old list.new }
{
    let Some(ties) = tied_starts(alloc, t.symbol())? else {
        return Ok(());
    };
    let places = all_places(t.symbol().symbol().involutions(), q);
    add_tied(alloc, t, ties, places, q, list)
}

/// All members of a request's catalogue that have the involutions of a table, ascending.
pub fn members_of(alloc: Global, t: Table, q: &Request) -> Result<SymbolList, Memory>
    ensures { IfOk result (λ list. AreMembersWith q.now t list) }
{
    let mut list = SymbolList::new(alloc);
    add_members_of(alloc, t, q, &mut list)?;
    Ok(list)
}
