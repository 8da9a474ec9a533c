ghost use Rattle.std.specs.Prelude.{◌≡◌, ◌+◌, ◌≤◌, ℕ, List, true, length, IfOk, IsSome};
ghost use Rattle.std.specs.List.{AllByRecursion};
ghost use Rattle.dd_ports.specs.declared.store.StoreFault.TheVariants.{Failed};
ghost use Rattle.dd_ports.specs.Causes.{HasCause, StaysSure};
ghost use Rattle.dd_ports.specs.Grows.{GrowsByPrefix};
ghost use Rattle.dd_suite_commands.specs.Merges.{bytes_of};
ghost use Rattle.dd_suite_tasks.specs.Merges.{AreFetchedFronts, IsMergeOfHeld, AppendsMerge, HasMergeCause};
ghost use Rattle.dd_suite_tasks.specs.Outside.{before_of, after_of, KeepsTexts, KeepsSure};
ghost use Rattle.dd_model.specs.Reading.{most_bytes};

use crate::ending::Ending;
use crate::fetch::fetch_front;
use crate::file::write_text;
use dd_ports::{Sink, Store, StoreFault};
use dd_suite_commands::{Stop, merge_files};
use dd_text::MOST_BYTES;
use dd_words::Name;
use std::alloc::Global;
use std::thread::Threads;

/// Returns the bytes that each name holds, or only one more of them than a file may have.
fn fetch_files<S: Store>(
    alloc: Global,
    names: &[Name],
    store: &mut S,
) -> Result<Vec<Vec<u8>>, StoreFault>
    ensures fronts { IfOk result (λ files. AreFetchedFronts (S.tells store.old) (S.held store.old)
        (most_bytes + 1) names.now (bytes_of files.items)) }
    ensures same { KeepsTexts S.Store store.old store.new }
    ensures cause { HasCause Failed (S.faults store.old) (S.faults store.new) result }
    ensures passes { S.sure store.old ≡ true → S.tells store.old ≡ true
        → AllByRecursion (λ name. IsSome (S.held store.old name)) names.now
        → StaysSure Failed (S.faults store.old) (S.faults store.new) (S.sure store.new) result }
{
    let mut files = Vec::new(alloc);
    for name in names {
        let file = fetch_front(alloc, name.as_str(), MOST_BYTES + 1, store)?;
        files.push(file)?;
    }
    Ok(files)
}

/// Writes the lines of all symbols of the files that names hold, in one list. All files are fetched
/// before the first is read.
pub fn write_merge<R: Threads + Sync, S: Store, O: Sink>(
    rt: &R,
    alloc: Global,
    names: &[Name],
    store: &mut S,
    out: &mut O,
) -> Ending
    requires few { length names.now ≤ 8 }
    ensures prefix { S.tells store.old ≡ true → (text : List ℕ)
        → IsMergeOfHeld names.now (S.tells store.old) (S.held store.old) text
        → GrowsByPrefix (O.held out.old) (O.held out.new) text }
    ensures whole { result ≡ Ending.Done → AppendsMerge names.now (S.tells store.old)
        (S.held store.old) (O.held out.old) (O.held out.new) }
    ensures cause { HasMergeCause names.now result
        (before_of S.Store O.Sink store.old out.old) (after_of S.Store O.Sink store.new out.new) }
    ensures same { KeepsTexts S.Store store.old store.new }
    ensures store_count { S.faults store.old ≤ S.faults store.new }
    ensures sink_count { O.faults out.old ≤ O.faults out.new }
    ensures store_sure { S.sure store.old ≡ true → S.tells store.old ≡ true
        → AllByRecursion (λ name. IsSome (S.held store.old name)) names.now
        → (S.faults store.new ≡ S.faults store.old) × (result ≡ Ending.StoreFault → ⊥) }
    ensures sink_sure { KeepsSure O.Sink out.old out.new result }
{
    let files = match fetch_files(alloc, names, store) {
        Ok(files) => files,
        Err(StoreFault::Failed) => return Ending::StoreFault,
        Err(StoreFault::Memory) => return Ending::Memory,
    };
    match merge_files(rt, alloc, &files) {
        Ok(text) => write_text(&text, out),
        Err(Stop::Refused(refusal)) => Ending::RefusedMerge(refusal),
        Err(Stop::Memory) => Ending::Memory,
    }
}
