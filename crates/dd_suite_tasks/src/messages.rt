ghost use Rattle.std.specs.Prelude.{◌≡◌, ◌≤◌, OnOk, IsErrOf, true};
ghost use Rattle.std.specs.Io.KnownBytes.{Appends};
ghost use Rattle.dd_ports.specs.declared.sink.SinkFault.TheVariants.{Failed, Memory};
ghost use Rattle.dd_ports.specs.Causes.{HasCause};
ghost use Rattle.dd_ports.specs.Grows.{GrowsByPrefix};
ghost use Rattle.dd_ports.specs.States.{SinkStaysSure};
ghost use Rattle.dd_suite_tasks.specs.Endings.{message_of, fault_line, refusal_line};
ghost use Rattle.dd_suite_tasks.specs.Endings.{check_line, merge_line, pause_line};
ghost use Rattle.dd_suite_tasks.specs.Messages.{IsShort};

use crate::ending::Ending;
use dd_check::ShardFault;
use dd_ports::{Sink, SinkFault, write_all_of};
use dd_suite_commands::{MergeRefusal, SymbolRefusal};
use dd_text::FileFault;
use itoa::Buffer;
use std::alloc::Global;

/// Writes the line of an ending. After `Err` a prefix of it was written: a write failed or ran out
/// of memory and counted it, or there was no memory to make the line of a refusal.
pub fn tell<E: Sink>(alloc: Global, ending: Ending, err: &mut E) -> Result<(), SinkFault>
    ensures whole { OnOk result (Appends (E.held err.old) (E.held err.new) (message_of ending)) }
    ensures prefix { GrowsByPrefix (E.held err.old) (E.held err.new) (message_of ending) }
    ensures cause { HasCause Failed (E.faults err.old) (E.faults err.new) result }
    ensures shortage { IsErrOf result Memory
        → IsShort ending (E.shortages err.old) (E.shortages err.new) }
    ensures shortages { E.shortages err.old ≤ E.shortages err.new }
    ensures sure { SinkStaysSure E.Sink Failed err.old err.new result }
{
    match ending {
        Ending::Done => Ok(()),
        Ending::Usage => write_all_of(err, b"dressline: words not taken\n"),
        Ending::Refused(fault) => tell_fault(alloc, fault, err),
        Ending::RefusedSymbol(refusal) => tell_refusal(alloc, refusal, err),
        Ending::RefusedCheck(fault) => tell_check(alloc, fault, err),
        Ending::RefusedMerge(refusal) => tell_merge(alloc, refusal, err),
        Ending::Paused(lines) => tell_pause(lines, err),
        Ending::StoreFault => write_all_of(err, b"dressline: store failed\n"),
        Ending::SinkFault => write_all_of(err, b"dressline: sink failed\n"),
        Ending::Memory => write_all_of(err, b"dressline: out of memory\n"),
        Ending::TooManyLines => write_all_of(err, b"dressline: too many lines\n"),
    }
}

/// Writes the line of a refused file.
fn tell_fault<E: Sink>(alloc: Global, fault: FileFault, err: &mut E) -> Result<(), SinkFault>
    ensures whole { OnOk result (Appends (E.held err.old) (E.held err.new) (fault_line fault)) }
    ensures prefix { GrowsByPrefix (E.held err.old) (E.held err.new) (fault_line fault) }
    ensures cause { HasCause Failed (E.faults err.old) (E.faults err.new) result }
    ensures shortages { E.shortages err.old ≤ E.shortages err.new }
    ensures sure { SinkStaysSure E.Sink Failed err.old err.new result }
{
    let line = format!(in alloc; "dressline: file: {fault}\n")?;
    write_all_of(err, line.as_bytes())
}

/// Writes the line of a symbol of which nothing is made.
fn tell_refusal<E: Sink>(
    alloc: Global,
    refusal: SymbolRefusal,
    err: &mut E,
) -> Result<(), SinkFault>
    ensures whole { OnOk result
        (Appends (E.held err.old) (E.held err.new) (refusal_line refusal)) }
    ensures prefix { GrowsByPrefix (E.held err.old) (E.held err.new) (refusal_line refusal) }
    ensures cause { HasCause Failed (E.faults err.old) (E.faults err.new) result }
    ensures shortages { E.shortages err.old ≤ E.shortages err.new }
    ensures sure { SinkStaysSure E.Sink Failed err.old err.new result }
{
    let line = format!(in alloc; "dressline: {refusal}\n")?;
    write_all_of(err, line.as_bytes())
}

/// Writes the line of a text that is no checkpoint text.
fn tell_check<E: Sink>(alloc: Global, fault: ShardFault, err: &mut E) -> Result<(), SinkFault>
    ensures whole { OnOk result (Appends (E.held err.old) (E.held err.new) (check_line fault)) }
    ensures prefix { GrowsByPrefix (E.held err.old) (E.held err.new) (check_line fault) }
    ensures cause { HasCause Failed (E.faults err.old) (E.faults err.new) result }
    ensures shortages { E.shortages err.old ≤ E.shortages err.new }
    ensures sure { SinkStaysSure E.Sink Failed err.old err.new result }
{
    let line = format!(in alloc; "dressline: checkpoint: {fault}\n")?;
    write_all_of(err, line.as_bytes())
}

/// Writes the line of files that are not merged.
fn tell_merge<E: Sink>(alloc: Global, refusal: MergeRefusal, err: &mut E) -> Result<(), SinkFault>
    ensures whole { OnOk result (Appends (E.held err.old) (E.held err.new) (merge_line refusal)) }
    ensures prefix { GrowsByPrefix (E.held err.old) (E.held err.new) (merge_line refusal) }
    ensures cause { HasCause Failed (E.faults err.old) (E.faults err.new) result }
    ensures shortages { E.shortages err.old ≤ E.shortages err.new }
    ensures sure { SinkStaysSure E.Sink Failed err.old err.new result }
{
    let line = format!(in alloc; "dressline: {refusal}\n")?;
    write_all_of(err, line.as_bytes())
}

/// Writes the line of a run that paused after `lines` lines of its chain. Nothing is allocated.
fn tell_pause<E: Sink>(lines: u64, err: &mut E) -> Result<(), SinkFault>
    ensures whole { OnOk result (Appends (E.held err.old) (E.held err.new) (pause_line lines)) }
    ensures prefix { GrowsByPrefix (E.held err.old) (E.held err.new) (pause_line lines) }
    ensures cause { HasCause Failed (E.faults err.old) (E.faults err.new) result }
    ensures shortage { HasCause Memory (E.shortages err.old) (E.shortages err.new) result }
    ensures sure { SinkStaysSure E.Sink Failed err.old err.new result }
{
    let mut digits = Buffer::new();
    write_all_of(err, b"dressline: paused at ")?;
    write_all_of(err, digits.format(lines).as_bytes())?;
    write_all_of(err, b" lines\n")
}
