ghost use Rattle.std.specs.Prelude.{◌≡◌, ◌++◌, ◌+◌, ◌<◌, ◌^◌, length, map, OnOk, IfOk};
ghost use Rattle.std.specs.List.{AllByRecursion};
ghost use Rattle.dd_shard.specs.Members.{IsShort, lists_of, numbered, tagged};

use crate::member::Member;
use dd_model::Memory;
use dd_symbol::Connected;
use std::alloc::Global;

/// Returns the symbols of all lists, one list after the other, each with its place.
pub(crate) fn members_of(alloc: Global, lists: Vec<Vec<Connected>>) -> Result<Vec<Member>, Memory>
    requires few { length lists.items < 2 ^ 32 }
    requires short { AllByRecursion IsShort (lists_of lists.items) }
    ensures { IfOk result (λ members. members.items ≡ tagged 1 (lists_of lists.items)) }
{
    let mut members = Vec::new(alloc);
    let mut file = 0;
    for list in lists {
        file += 1;
        add_list(&mut members, file, list)?;
    }
    Ok(members)
}

/// Appends the symbols of a list, each with its place.
fn add_list(members: &mut Vec<Member>, file: u32, list: Vec<Connected>) -> Result<(), Memory>
    requires { IsShort list.items }
    ensures { OnOk result (members.new.items ≡ members.old.items ++ numbered file 1 list.items) }
{
    let mut number = 0;
    for symbol in list {
        number += 1;
        members.push(Member {
            symbol,
            file,
            number,
        })?;
    }
    Ok(())
}

/// Returns the symbols of members, without their places.
pub(crate) fn symbols_of(alloc: Global, members: Vec<Member>) -> Result<Vec<Connected>, Memory>
    ensures { IfOk result (λ symbols. symbols.items ≡ map (λ m. m.symbol) members.items) }
{
    let mut symbols = Vec::with_capacity(alloc, members.len())?;
    for member in members {
        symbols.push(member.symbol)?;
    }
    Ok(symbols)
}
