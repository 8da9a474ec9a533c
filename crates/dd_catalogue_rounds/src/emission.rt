ghost use Rattle.std.specs.Prelude.{◌≡◌, ◌+◌, ◌≤◌, List, IfOk, OnOk, MatchBool, true};
ghost use Rattle.std.specs.Bool.{OnTrue, OnFalse};
ghost use Rattle.dd_ports.specs.declared.sink.SinkFault.TheVariants.{Failed};
ghost use Rattle.dd_ports.specs.Causes.{HasCause};
ghost use Rattle.dd_ports.specs.States.{SinkStaysSure};
ghost use Rattle.dd_model.specs.Symbol.{Symbol};
ghost use Rattle.dd_front.specs.declared.event.Event.TheVariants.{Part};
ghost use Rattle.dd_front.specs.Allowed.{HasFirst, MayPart};
ghost use Rattle.dd_front.specs.Rounds.{open_jobs};
ghost use Rattle.dd_front.specs.Room.{HasRoom, HasRoomToEmit};
ghost use Rattle.dd_front.specs.Step.{Emits, EmitsPart};
ghost use Rattle.dd_pages_and_checkpoints.specs.Rounds.{AreOpen, AreDoneThenOpen};
ghost use Rattle.dd_catalogue_rounds.specs.Steps.{IsAtNext, IsPastEmpty};
ghost use Rattle.dd_catalogue_rounds.specs.Ways.{GoesOn, FillsUp};
ghost use Rattle.dd_catalogue_rounds.specs.Outs.{IsAny, WritesPart};
ghost use Rattle.dd_pages_and_checkpoints.specs.MostLines.{most_lines};

use crate::rounds::count_at_front;
use dd_front::{Event, Front, Members};
use dd_model::Memory;
use dd_pages_and_checkpoints::Page;
use dd_ports::{Sink, SinkFault};
use std::thread::Threads;

/// Takes the first entry, which is done, off the front, with its members.
fn next_list(front: &mut Front) -> Members
    requires first { (list : List Symbol) × HasFirst front.old list }
    requires room { HasRoomToEmit front.old }
    ensures { Emits front.old front.new result }
{
    let Some(members) = front.emit() else {
        unreachable!()
    };
    members
}

/// Takes the entries off the front that are done and have no member to emit, and brings the front
/// to the next member. Returns false if there is none. It fails only if an allocation fails.
pub(crate) fn reach_member(front: &mut Front) -> Result<bool, Memory>
    requires lines { front.old.lines ≤ most_lines }
    requires done { AreDoneThenOpen front.old.entries }
    ensures reached { IfOk result (λ more. MatchBool more
        (IsAtNext front.old front.new) (IsPastEmpty front.old front.new)) }
{
    while count_at_front(front).is_some() {
        if front.allowed(&Event::Part { count: 0 }) {
            let _ = front.part(0)?;
            return Ok(true);
        }
        let _ = next_list(front);
    }
    Ok(false)
}

/// Emits the entries at the front that are done, and puts their lines, made by `threads` threads,
/// to the page. If there is a line after the last one that may be written, the front stops at its
/// member, and the call returns false.
pub(crate) fn write_done<R: Threads + Sync, O: Sink>(
    rt: &R,
    threads: u32,
    last: u64,
    front: &mut Front,
    page: &mut Page,
    out: &mut O,
) -> Result<bool, SinkFault>
    requires last { last ≤ most_lines }
    requires room { page.old.count ≤ last }
    requires any { IsAny (O.held out.old) page.old front.old }
    ensures all { IfOk result (λ all. OnTrue all
        (GoesOn (O.held out.old) (O.held out.new) page.old page.new front.old front.new)) }
    ensures opened { IfOk result (λ all. OnTrue all (AreOpen front.new.entries)) }
    ensures room { IfOk result (λ all. OnTrue all (page.new.count ≤ last)) }
    ensures full { IfOk result (λ all. OnFalse all
        (FillsUp (O.held out.old) (O.held out.new) page.old page.new last front.old front.new)) }
    ensures still { OnOk result (open_jobs front.new.entries ≡ open_jobs front.old.entries) }
    ensures part { WritesPart (O.held out.old) (O.held out.new) page.old front.old }
    ensures cause { HasCause Failed (O.faults out.old) (O.faults out.new) result }
    ensures sure { SinkStaysSure O.Sink Failed out.old out.new result }
{
    while count_at_front(front).is_some() {
        let room = last - page.count;
        if front.allowed(&Event::Part { count: room }) {
            write_last(rt, threads, room, front, page, out)?;
            return Ok(false);
        }
        page.add(rt, threads, next_list(front), out)?;
    }
    Ok(true)
}

/// Emits `count` members of the first entry, after which there is one more, and puts their lines to
/// the page.
fn write_last<R: Threads + Sync, O: Sink>(
    rt: &R,
    threads: u32,
    count: u64,
    front: &mut Front,
    page: &mut Page,
    out: &mut O,
) -> Result<(), SinkFault>
    requires room { page.old.count + count ≤ most_lines }
    requires more { MayPart front.old count }
    requires any { IsAny (O.held out.old) page.old front.old }
    ensures full { OnOk result (FillsUp (O.held out.old) (O.held out.new) page.old page.new
        (page.old.count + count) front.old front.new) }
    ensures still { OnOk result (open_jobs front.new.entries ≡ open_jobs front.old.entries) }
    ensures part { WritesPart (O.held out.old) (O.held out.new) page.old front.old }
    ensures cause { HasCause Failed (O.faults out.old) (O.faults out.new) result }
    ensures sure { SinkStaysSure O.Sink Failed out.old out.new result }
{
    let Ok(list) = front.part(count) else {
        return Err(SinkFault::Memory);
    };
    page.add(rt, threads, list, out)?;
    Ok(())
}
