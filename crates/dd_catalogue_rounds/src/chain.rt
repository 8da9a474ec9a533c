ghost use Rattle.std.specs.Prelude.{◌≡◌, ◌≤◌, ◌<◌, ℕ, Bool, List, Option, if◌then◌else◌, IfOk, true};
ghost use Rattle.dd_ports.specs.Causes.{HasCause};
ghost use Rattle.dd_ports.specs.States.{KeepsOthers, SinkStaysSure, StoreStaysSure};
ghost use Rattle.dd_check.specs.Clauses.{HasWork};
ghost use Rattle.dd_pages_and_checkpoints.specs.declared.fault.RunFault.TheVariants.{Store as StoreFailed, Sink as SinkFailed};
ghost use Rattle.dd_pages_and_checkpoints.specs.Pages.{IsEmpty};
ghost use Rattle.dd_catalogue_rounds.specs.Works.{IsStarted};
ghost use Rattle.dd_pages_and_checkpoints.specs.Runs.{start_of};
ghost use Rattle.dd_pages_and_checkpoints.specs.Names.{HasRun};
ghost use Rattle.dd_pages_and_checkpoints.specs.Runs.{IsLimit};
ghost use Rattle.dd_catalogue_rounds.specs.Ways.{Way};
ghost use Rattle.dd_catalogue_rounds.specs.Kept.{IsMid};
ghost use Rattle.dd_catalogue_rounds.specs.Steps.{IsSomeMid, Leaves, StillWait, IsWithin};

use crate::after_round::AfterRound;
use crate::kept_round::{keep_member, write_kept};
use crate::output::Output;
use crate::rounds::{do_kept_round, front_of};
use crate::workshop::Workshop;
use dd_front::Finder;
use dd_pages_and_checkpoints::{Finish, Limit, Page, Run, RunFault, save, save_first};
use dd_ports::{Gate, Sink, Store};
use std::sync::Wait;
use std::thread::Threads;

/// Writes the lines of a run, and keeps its checkpoint under the name, so that a run that was
/// stopped can be resumed. It puts the checkpoint after each round with lines, at a pause and at
/// the end. A round in the middle of a job is followed by no checkpoint; it is put before the first
/// line of the next round. A round with the last line that there may be is followed by none. The
/// first run of a chain also puts the checkpoint before the first line. Neither the workers nor
/// what they choose changes what is written.
pub fn write_run<R: Threads + Wait + Sync, F: Finder + Sync, G: Gate + Sync, S: Store, O: Sink>(
    workshop: &Workshop<'_, R, G>,
    finder: &mut F,
    run: &Run,
    name: &str,
    store: &mut S,
    out: &mut O,
) -> Result<Finish, RunFault>
    requires request { F.request finder.old ≡ run.now.portion.request }
    ensures request { F.request finder.new ≡ F.request finder.old }
    ensures run { HasRun (start_of run.now) run.now.pace.round run.now.pause
        (O.held out.old) (O.held out.new)
        (S.tells store.old) (S.held store.old name.now) (S.held store.new name.now) result }
    ensures others { KeepsOthers S.Store name.now store.old store.new }
    ensures store_cause { HasCause StoreFailed (S.faults store.old) (S.faults store.new) result }
    ensures sink_cause { HasCause SinkFailed (O.faults out.old) (O.faults out.new) result }
    ensures store_sure { StoreStaysSure S.Store StoreFailed store.old store.new result }
    ensures sink_sure { SinkStaysSure O.Sink SinkFailed out.old out.new result }
{
    let Ok(front) = front_of(workshop.alloc, finder, run) else {
        return Err(RunFault::Memory);
    };
    let mut output = Output {
        front,
        page: Page::new(workshop.alloc, run.lines),
        is_kept: true,
    };
    keep_rounds(workshop, finder, run, name, &mut output, store, out)
}

/// Writes the lines of a run from its first round on, and puts its checkpoints. The first run of a
/// chain also puts one before the first line.
fn keep_rounds<R: Threads + Wait + Sync, F: Finder + Sync, G: Gate + Sync, S: Store, O: Sink>(
    workshop: &Workshop<'_, R, G>,
    finder: &mut F,
    run: &Run,
    name: &str,
    output: &mut Output,
    store: &mut S,
    out: &mut O,
) -> Result<Finish, RunFault>
    requires request { F.request finder.old ≡ run.now.portion.request }
    requires begun { IsStarted (start_of run.now) output.old.front }
    requires empty { IsEmpty output.old.page }
    requires count { output.old.page.count ≡ run.now.lines }
    requires bytes { output.old.page.collected.written ≡ 0 }
    ensures request { F.request finder.new ≡ F.request finder.old }
    ensures run { HasRun (start_of run.now) run.now.pace.round run.now.pause
        (O.held out.old) (O.held out.new)
        (S.tells store.old) (S.held store.old name.now) (S.held store.new name.now) result }
    ensures others { KeepsOthers S.Store name.now store.old store.new }
    ensures store_cause { HasCause StoreFailed (S.faults store.old) (S.faults store.new) result }
    ensures sink_cause { HasCause SinkFailed (O.faults out.old) (O.faults out.new) result }
    ensures store_sure { StoreStaysSure S.Store StoreFailed store.old store.new result }
    ensures sink_sure { SinkStaysSure O.Sink SinkFailed out.old out.new result }
{
    save_first(
        workshop.alloc,
        run,
        name,
        &output.front,
        &output.page,
        store,
    )?;
    let limit = run.limit();
    output.is_kept = true;
    while let Ok(more) = do_kept_round(workshop, finder, run.pace, &mut output.front) {
        if !more {
            if !output.is_kept {
                save(
                    workshop.alloc,
                    run,
                    name,
                    &output.front,
                    &output.page,
                    store,
                )?;
            }
            return Ok(Finish::Whole);
        }
        match keep_round(workshop, run, name, limit, output, store, out)? {
            AfterRound::Next(here) => output.is_kept = here,
            AfterRound::Ended(finish) => return Ok(finish),
        }
    }
    Err(RunFault::Memory)
}

/// Writes the lines of a round that is done. If the name does not have the checkpoint of where the
/// front stands, it is put before the next line. It is put after the last line of the round too, if
/// the front then stands at a job of the portion or at the end, and a further line may be written.
fn keep_round<R: Threads + Sync, G, S: Store, O: Sink>(
    workshop: &Workshop<'_, R, G>,
    run: &Run,
    name: &str,
    limit: Limit,
    output: &mut Output,
    store: &mut S,
    out: &mut O,
) -> Result<AfterRound, RunFault>
    requires limit { IsLimit run.now.lines run.now.pause limit }
    requires room { output.old.page.count ≤ limit.last }
    requires mid { IsSomeMid (start_of run.now) output.old.is_kept (O.held out.old) output.old.page
        output.old.front }
    ensures leaves { (w : Way) (tells : Bool) (before start : Option (List ℕ))
        → w.start ≡ start_of run.now → (tells ≡ true → S.tells store.old ≡ true)
        → IsMid w tells output.old.is_kept start before (S.held store.old name.now)
        (O.held out.old) output.old.page output.old.front → HasWork (start_of run.now)
        → Leaves (start_of run.now) w.most run.now.pause tells start before
        (S.held store.new name.now) (O.held out.new) output.new.page output.new.front result }
    ensures waiting { IfOk result (λ step. StillWait step output.old.front output.new.front) }
    ensures room { IfOk result (IsWithin output.new.page limit.last) }
    ensures others { KeepsOthers S.Store name.now store.old store.new }
    ensures store_cause { HasCause StoreFailed (S.faults store.old) (S.faults store.new) result }
    ensures sink_cause { HasCause SinkFailed (O.faults out.old) (O.faults out.new) result }
    ensures store_sure { StoreStaysSure S.Store StoreFailed store.old store.new result }
    ensures sink_sure { SinkStaysSure O.Sink SinkFailed out.old out.new result }
{
    if output.is_kept {
        return write_kept(workshop, run, name, limit, output, store, out);
    }
    let Output { front, page, .. } = output;
    match keep_member(workshop.alloc, run, name, limit, front, page, store)? {
        Some(step) => Ok(step),
        None => write_kept(workshop, run, name, limit, output, store, out),
    }
}
