ghost use Rattle.std.specs.Prelude.{◌≤◌, length, IfOk, IfErr};
ghost use Rattle.std.specs.List.{AllByRecursion};
ghost use Rattle.dd_model.specs.Reading.{Reads};
ghost use Rattle.dd_shard.specs.Merging.{AreMergeable, IsMerged};
ghost use Rattle.dd_shard.specs.Members.{IsShort, lists_of};
ghost use Rattle.dd_suite_commands.specs.Merges.{bytes_of, AreRead, AreReadEach, IsMergedText};
ghost use Rattle.dd_suite_commands.specs.Merges.{IsMergeRefusal, IsReadRefusal, IsFileRefusal, IsListRefusal};
ghost use Rattle.dd_suite_commands.specs.Stops.{IsStop};

use crate::merge_refusal::MergeRefusal;
use crate::merged_lines::lines_by_parts;
use crate::stop::Stop;
use dd_model::Memory;
use dd_shard::{MergeFault, merge};
use dd_symbol::Connected;
use dd_text::{Why, read_file};
use std::alloc::Global;
use std::thread;
use std::thread::Threads;

/// Returns the lines of all symbols of ascending files that have no symbol in common, in order and
/// numbered from 1.
///
/// A refusal names the first file with a fault. If there is none, it names the first symbol that is
/// not after the one before it in its file, or else the first that equals one of an earlier file.
///
/// Threads read the files, merge their symbols and make the lines.
pub fn merge_files<R: Threads + Sync>(
    rt: &R,
    alloc: Global,
    files: &[Vec<u8>],
) -> Result<Vec<u8>, Stop<MergeRefusal>>
    requires few { length files.now ≤ 8 }
    ensures text { IfOk result (λ text. IsMergedText (bytes_of files.now) text.items) }
    ensures why { IfErr result (IsStop (IsMergeRefusal (bytes_of files.now))) }
{
    let lists = read_files(rt, alloc, files)?;
    let members = merge_lists(rt, alloc, lists)?;
    Ok(lines_by_parts(rt, alloc, &members)?)
}

/// Returns the symbols of each file.
fn read_files<R: Threads + Sync>(
    rt: &R,
    alloc: Global,
    files: &[Vec<u8>],
) -> Result<Vec<Vec<Connected>>, Stop<MergeRefusal>>
    requires { length files.now ≤ 8 }
    ensures read { IfOk result (λ lists. AreRead (bytes_of files.now) (lists_of lists.items)) }
    ensures why { IfErr result (IsStop (IsReadRefusal (bytes_of files.now))) }
{
    let mut lists = Vec::new(alloc);
    for symbols in read_each(rt, alloc, files)? {
        lists.push(symbols?)?;
    }
    Ok(lists)
}

/// Returns what reading each file gives. A thread of its own reads each file.
fn read_each<R: Threads + Sync>(
    rt: &R,
    alloc: Global,
    files: &[Vec<u8>],
) -> Result<Vec<Result<Vec<Connected>, Stop<MergeRefusal>>>, Memory>
    requires { length files.now ≤ 8 }
    ensures { IfOk result (λ read. AreReadEach (bytes_of files.now) read.items) }
{
    Ok(thread::map_indices(
        rt,
        alloc,
        files.len(),
        &|k| { read_numbered(alloc, k as u32 + 1, &files[k]) },
    )?)
}

/// Returns the symbols of the file with a number.
fn read_numbered(
    alloc: Global,
    number: u32,
    file: &[u8],
) -> Result<Vec<Connected>, Stop<MergeRefusal>>
    ensures read { IfOk result (λ symbols. Reads file.now symbols.items) }
    ensures why { IfErr result (IsStop (IsFileRefusal number file.now)) }
{
    match read_file(alloc, file) {
        Ok(symbols) => Ok(symbols),
        Err(fault) => match fault.why {
            Why::Memory => Err(Stop::Memory),
            _ => Err(Stop::Refused(MergeRefusal::File {
                file: number,
                fault,
            })),
        },
    }
}

/// Returns the ascending list of all symbols of lists.
fn merge_lists<R: Threads + Sync>(
    rt: &R,
    alloc: Global,
    lists: Vec<Vec<Connected>>,
) -> Result<Vec<Connected>, Stop<MergeRefusal>>
    requires few { length lists.items ≤ 8 }
    requires short { AllByRecursion IsShort (lists_of lists.items) }
    ensures mergeable { IfOk result (λ _. AreMergeable (lists_of lists.items)) }
    ensures merged { IfOk result (λ members. IsMerged (lists_of lists.items) members.items) }
    ensures why { IfErr result (IsStop (IsListRefusal (lists_of lists.items))) }
{
    match merge(rt, alloc, lists) {
        Ok(members) => Ok(members),
        Err(MergeFault::NotAscending { file, symbol }) => {
            Err(Stop::Refused(MergeRefusal::NotAscending { file, symbol }))
        }
        Err(MergeFault::Doubled { file, symbol }) => {
            Err(Stop::Refused(MergeRefusal::Doubled { file, symbol }))
        }
        Err(MergeFault::Memory) => Err(Stop::Memory),
    }
}
