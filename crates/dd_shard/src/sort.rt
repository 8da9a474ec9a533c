ghost use Rattle.std.specs.Prelude.{◌<◌, OnOk};
ghost use Rattle.std.specs.List.Sorted.{IsSortedBy};
ghost use Rattle.dd_shard.specs.Members.{by_code, IsReordered};

use crate::member::Member;
use dd_model::Memory;
use dd_symbol::cmp_code;
use std::alloc::Global;
use std::thread;
use std::thread::Threads;

/// The most parts, each of which has a thread.
const PARTS: usize = 4;

/// How many members a part has at least, so that its thread is worth its start.
const FEWEST: usize = 2048;

/// Sorts members by their codes. Members with one code stay in their order.
///
/// A sort takes ascending stretches as they are and merges them. Threads first merge those of four
/// parts, so that the sort of the whole has only four to merge.
pub(crate) fn sort<R: Threads + Sync>(rt: &R, members: &mut Vec<Member>) -> Result<(), Memory>
    ensures reordered { IsReordered members.old.items members.new.items }
    ensures sorted { OnOk result (IsSortedBy by_code members.new.items) }
{
    let size = members.len().div_ceil(PARTS).max(FEWEST);
    sort_parts(rt, size, members);
    sort_whole(members)
}

/// Sorts parts of `size` members by threads. A part for which there is no memory stays as it is.
fn sort_parts<R: Threads + Sync>(rt: &R, size: usize, members: &mut Vec<Member>)
    requires { 0 < size }
    ensures { IsReordered members.old.items members.new.items }
{
    let alloc = *members.allocator();
    let sort = |_: usize, part: &mut [Member]|
        ensures { IsReordered part.old part.new }
    { sort_part(alloc, part) };
    thread::for_each_chunk_mut(rt, members.as_mut_slice(), size, &sort);
}

/// Sorts some members, if there is memory for it.
fn sort_part(alloc: Global, part: &mut [Member])
    ensures { IsReordered part.old part.new }
{
    let _ = part.sort_by(alloc, |a, b| cmp_code(a.symbol.symbol(), b.symbol.symbol()));
}

/// Sorts all members.
fn sort_whole(members: &mut Vec<Member>) -> Result<(), Memory>
    ensures reordered { IsReordered members.old.items members.new.items }
    ensures sorted { OnOk result (IsSortedBy by_code members.new.items) }
{
    members.sort_by(|a, b| cmp_code(a.symbol.symbol(), b.symbol.symbol()))?;
    Ok(())
}
