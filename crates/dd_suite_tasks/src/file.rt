ghost use Rattle.std.specs.Prelude.{◌≡◌, ◌≤◌, ℕ, List, true, IfOk, IfErr, IsSome};
ghost use Rattle.std.specs.Io.KnownBytes.{Appends};
ghost use Rattle.dd_ports.specs.Grows.{GrowsByPrefix};
ghost use Rattle.dd_suite_tasks.specs.Held.{AreFetched, IsTextOfHeld, AppendsFileText};
ghost use Rattle.dd_suite_tasks.specs.Stops.{IsFetchStop, IsWriteEnding, HasFileCause};
ghost use Rattle.dd_suite_tasks.specs.Outside.{before_of, after_of, KeepsTexts, KeepsSure};

use crate::ending::Ending;
use crate::fetch::fetch_all;
use dd_ports::{Sink, SinkFault, Store, StoreFault, write_all_of};
use dd_suite_commands::{FileCommand, text_of_file};
use dd_text::{FileFault, MOST_BYTES, Why};
use std::alloc::Global;

/// All that a name holds.
fn fetch_file<S: Store>(alloc: Global, name: &str, store: &mut S) -> Result<Vec<u8>, Ending>
    ensures bytes { IfOk result (λ bytes.
        AreFetched (S.tells store.old) (S.held store.old name.now) bytes.items) }
    ensures why { IfErr result (λ ending.
        IsFetchStop ending (S.tells store.old) (S.held store.old name.now)
        (S.faults store.old) (S.faults store.new)) }
    ensures same { KeepsTexts S.Store store.old store.new }
    ensures count { S.faults store.old ≤ S.faults store.new }
    ensures sure { S.sure store.old ≡ true → IsSome (S.held store.old name.now)
        → S.faults store.new ≡ S.faults store.old }
    ensures passes { S.sure store.old ≡ true → IsSome (S.held store.old name.now)
        → IfErr result (λ ending. ending ≡ Ending.StoreFault → ⊥) }
{
    match fetch_all(alloc, name, MOST_BYTES, store) {
        Ok(Some(bytes)) => Ok(bytes),
        Ok(None) => Err(Ending::Refused(FileFault {
            symbol: 0,
            at: MOST_BYTES as u64,
            why: Why::Long,
        })),
        Err(StoreFault::Failed) => Err(Ending::StoreFault),
        Err(StoreFault::Memory) => Err(Ending::Memory),
    }
}

/// Writes a whole text at once.
pub fn write_text<O: Sink>(text: &[u8], out: &mut O) -> Ending
    ensures prefix { GrowsByPrefix (O.held out.old) (O.held out.new) text.now }
    ensures whole { result ≡ Ending.Done → Appends (O.held out.old) (O.held out.new) text.now }
    ensures cause { IsWriteEnding result (O.faults out.old) (O.faults out.new) }
    ensures count { O.faults out.old ≤ O.faults out.new }
    ensures sure { KeepsSure O.Sink out.old out.new result }
{
    match write_all_of(out, text) {
        Ok(()) => Ending::Done,
        Err(SinkFault::Failed) => Ending::SinkFault,
        Err(SinkFault::Memory) => Ending::Memory,
    }
}

/// Writes the text of a command on the file that a name holds.
pub fn write_file<S: Store, O: Sink>(
    alloc: Global,
    command: FileCommand,
    name: &str,
    store: &mut S,
    out: &mut O,
) -> Ending
    ensures prefix { S.tells store.old ≡ true → (text : List ℕ)
        → IsTextOfHeld command (S.tells store.old) (S.held store.old name.now) text
        → GrowsByPrefix (O.held out.old) (O.held out.new) text }
    ensures whole { result ≡ Ending.Done → AppendsFileText command (S.tells store.old)
        (S.held store.old name.now) (O.held out.old) (O.held out.new) }
    ensures cause { HasFileCause command name.now result
        (before_of S.Store O.Sink store.old out.old) (after_of S.Store O.Sink store.new out.new) }
    ensures same { KeepsTexts S.Store store.old store.new }
    ensures store_count { S.faults store.old ≤ S.faults store.new }
    ensures sink_count { O.faults out.old ≤ O.faults out.new }
    ensures store_sure { S.sure store.old ≡ true → IsSome (S.held store.old name.now)
        → (S.faults store.new ≡ S.faults store.old) × (result ≡ Ending.StoreFault → ⊥) }
    ensures sink_sure { KeepsSure O.Sink out.old out.new result }
{
    let bytes = match fetch_file(alloc, name, store) {
        Ok(bytes) => bytes,
        Err(ending) => return ending,
    };
    match text_of_file(alloc, command, &bytes) {
        Ok(text) => write_text(&text, out),
        Err(fault) => Ending::of_fault(fault),
    }
}
