ghost use Rattle.std.specs.Prelude.{◌≡◌, ◌≤◌, ◌<◌, ℕ, Bool, List, Option, if◌then◌else◌, IfOk, OnOk, MatchBool, MatchOption, true, false};
ghost use Rattle.std.specs.Bool.{OnTrue, OnFalse};
ghost use Rattle.dd_ports.specs.declared.sink.SinkFault.TheVariants.{Failed};
ghost use Rattle.dd_ports.specs.Causes.{HasCause};
ghost use Rattle.dd_ports.specs.States.{KeepsOthers, SinkStaysSure, StoreStaysSure};
ghost use Rattle.dd_check.specs.Clauses.{HasWork};
ghost use Rattle.dd_pages_and_checkpoints.specs.declared.fault.RunFault.TheVariants.{Store as StoreFailed, Sink as SinkFailed};
ghost use Rattle.dd_pages_and_checkpoints.specs.Pages.{IsEmpty};
ghost use Rattle.dd_pages_and_checkpoints.specs.Rounds.{AreOpen};
ghost use Rattle.dd_catalogue_rounds.specs.Ways.{GoesOn, FillsUp};
ghost use Rattle.dd_catalogue_rounds.specs.Outs.{IsAny, WritesPart};
ghost use Rattle.dd_pages_and_checkpoints.specs.Runs.{start_of};
ghost use Rattle.dd_pages_and_checkpoints.specs.Saves.{Saves};
ghost use Rattle.dd_pages_and_checkpoints.specs.Runs.{IsLimit};
ghost use Rattle.dd_pages_and_checkpoints.specs.Rounds.{AreDoneThenOpen};
ghost use Rattle.dd_front.specs.Rounds.{open_jobs};
ghost use Rattle.dd_catalogue_rounds.specs.Ways.{Way};
ghost use Rattle.dd_catalogue_rounds.specs.Kept.{IsHead, IsMid};
ghost use Rattle.dd_catalogue_rounds.specs.Steps.{IsSomeMid, IsNextStep, Leaves, LeavesMember, StillWait, IsWithin};
ghost use Rattle.dd_pages_and_checkpoints.specs.MostLines.{most_lines};

use crate::after_round::AfterRound;
use crate::emission::{reach_member, write_done};
use crate::output::Output;
use crate::rounds::stands_at_job;
use crate::tuning::LINES_A_CHECKPOINT;
use crate::workshop::Workshop;
use dd_front::Front;
use dd_pages_and_checkpoints::{Finish, Limit, MOST_LINES, Page, Run, RunFault, save};
use dd_ports::{Sink, SinkFault, Store};
use std::alloc::Global;
use std::thread::Threads;

/// Writes the lines of a round that is done, where the name has the checkpoint of where the front
/// stands. It puts further checkpoints among the lines. It puts one after the last line of the
/// round, if the front then stands at a job of the portion or at the end, and a further line may be
/// written.
pub(crate) fn write_kept<R: Threads + Sync, G, S: Store, O: Sink>(
    workshop: &Workshop<'_, R, G>,
    run: &Run,
    name: &str,
    limit: Limit,
    output: &mut Output,
    store: &mut S,
    out: &mut O,
) -> Result<AfterRound, RunFault>
    requires limit { IsLimit run.now.lines run.now.pause limit }
    requires room { output.old.page.count ≤ limit.last }
    requires mid { IsSomeMid (start_of run.now) true (O.held out.old) output.old.page
        output.old.front }
    ensures leaves { (w : Way) (tells : Bool) (before start : Option (List ℕ))
        → w.start ≡ start_of run.now → (tells ≡ true → S.tells store.old ≡ true)
        → IsMid w tells true start before (S.held store.old name.now)
        (O.held out.old) output.old.page output.old.front → HasWork (start_of run.now)
        → Leaves (start_of run.now) w.most run.now.pause tells start before
        (S.held store.new name.now) (O.held out.new) output.new.page output.new.front result }
    ensures waiting { IfOk result (λ step. StillWait step output.old.front output.new.front) }
    ensures room { IfOk result (IsWithin output.new.page limit.last) }
    ensures others { KeepsOthers S.Store name.now store.old store.new }
    ensures store_cause { HasCause StoreFailed (S.faults store.old) (S.faults store.new) result }
    ensures sink_cause { HasCause SinkFailed (O.faults out.old) (O.faults out.new) result }
    ensures store_sure { StoreStaysSure S.Store StoreFailed store.old store.new result }
    ensures sink_sure { SinkStaysSure O.Sink SinkFailed out.old out.new result }
{
    loop {
        match write_part(workshop, run, name, limit, output, store, out)? {
            Some(step) => return Ok(step),
            None => {}
        }
    }
}

/// Writes the next lines of a round that is done, where the name has the checkpoint of where the
/// front stands. If more lines of the round are left, it puts the checkpoint of the next member,
/// and returns nothing.
fn write_part<R: Threads + Sync, G, S: Store, O: Sink>(
    workshop: &Workshop<'_, R, G>,
    run: &Run,
    name: &str,
    limit: Limit,
    output: &mut Output,
    store: &mut S,
    out: &mut O,
) -> Result<Option<AfterRound>, RunFault>
    requires limit { IsLimit run.now.lines run.now.pause limit }
    requires room { output.old.page.count ≤ limit.last }
    requires mid { IsSomeMid (start_of run.now) true (O.held out.old) output.old.page
        output.old.front }
    ensures leaves { (w : Way) (tells : Bool) (before start : Option (List ℕ))
        → w.start ≡ start_of run.now → (tells ≡ true → S.tells store.old ≡ true)
        → IsMid w tells true start before (S.held store.old name.now)
        (O.held out.old) output.old.page output.old.front → HasWork (start_of run.now)
        → LeavesMember w run.now.pause tells start before
        (S.held store.new name.now) (O.held out.new) output.new.page output.new.front result }
    ensures waiting { IfOk result (λ step. MatchOption step
        (open_jobs output.new.front.entries ≡ open_jobs output.old.front.entries)
        (λ step. StillWait step output.old.front output.new.front)) }
    ensures room { IfOk result (λ step. MatchOption step
        ((output.old.page.count < output.new.page.count) × (output.new.page.count ≤ limit.last))
        (IsWithin output.new.page limit.last)) }
    ensures others { KeepsOthers S.Store name.now store.old store.new }
    ensures store_cause { HasCause StoreFailed (S.faults store.old) (S.faults store.new) result }
    ensures sink_cause { HasCause SinkFailed (O.faults out.old) (O.faults out.new) result }
    ensures store_sure { StoreStaysSure S.Store StoreFailed store.old store.new result }
    ensures sink_sure { SinkStaysSure O.Sink SinkFailed out.old out.new result }
{
    let alloc = workshop.alloc;
    let Output { front, page, .. } = output;
    let before = page.count;
    let last = limit.last.min(before + LINES_A_CHECKPOINT);
    if !write_round(workshop.rt, run.pace.workers(), last, front, page, out)? {
        if last == limit.last {
            let finish = end_full(alloc, run, name, limit, front, page, store)?;
            return Ok(Some(AfterRound::Ended(finish)));
        }
        save(alloc, run, name, front, page, store)?;
        return Ok(None);
    }
    if page.count == before {
        return Ok(Some(AfterRound::Next(false)));
    }
    let step = keep_place(alloc, run, name, front, page, store)?;
    Ok(Some(step))
}

/// Brings the front to the next member of a round that is done, and puts the checkpoint of there.
/// Returns what follows at once if the round has no member, or if its line may not be written.
pub(crate) fn keep_member<S: Store>(
    alloc: Global,
    run: &Run,
    name: &str,
    limit: Limit,
    front: &mut Front,
    page: &Page,
    store: &mut S,
) -> Result<Option<AfterRound>, RunFault>
    requires limit { IsLimit run.now.lines run.now.pause limit }
    requires lines { front.old.lines ≤ most_lines }
    requires room { page.now.count ≤ limit.last }
    requires done { AreDoneThenOpen front.old.entries }
    ensures leaves { (w : Way) (tells : Bool) (before start now : Option (List ℕ))
        → w.start ≡ start_of run.now → (tells ≡ true → S.tells store.old ≡ true)
        → IsMid w tells false start before (S.held store.old name.now) now page.now front.old
        → LeavesMember w run.now.pause tells start before
        (S.held store.new name.now) now page.now front.new result }
    ensures waiting { OnOk result (open_jobs front.new.entries ≡ open_jobs front.old.entries) }
    ensures others { KeepsOthers S.Store name.now store.old store.new }
    ensures cause { HasCause StoreFailed (S.faults store.old) (S.faults store.new) result }
    ensures no_sink { result ≡ Err SinkFailed → ⊥ }
    ensures sure { StoreStaysSure S.Store StoreFailed store.old store.new result }
{
    let Ok(more) = reach_member(front) else {
        return Err(RunFault::Memory);
    };
    if !more {
        return Ok(Some(AfterRound::Next(false)));
    }
    if page.count == limit.last {
        let finish = end_full(alloc, run, name, limit, front, page, store)?;
        return Ok(Some(AfterRound::Ended(finish)));
    }
    save(alloc, run, name, front, page, store)?;
    Ok(None)
}

/// Puts the checkpoint of a run between two rounds, if its front stands at a job of the portion or
/// at the end. If no further line may be written, it leaves the name as it is.
fn keep_place<S: Store>(
    alloc: Global,
    run: &Run,
    name: &str,
    front: &Front,
    page: &Page,
    store: &mut S,
) -> Result<AfterRound, RunFault>
    ensures leaves { (most : ℕ) (tells : Bool) (before start now : Option (List ℕ))
        → (tells ≡ true → S.tells store.old ≡ true)
        → IsHead (start_of run.now) most tells false start before
        (S.held store.old name.now) now page.now front.now
        → Leaves (start_of run.now) most run.now.pause tells start before
        (S.held store.new name.now) now page.now front.now result }
    ensures next { IfOk result IsNextStep }
    ensures others { KeepsOthers S.Store name.now store.old store.new }
    ensures cause { HasCause StoreFailed (S.faults store.old) (S.faults store.new) result }
    ensures no_sink { result ≡ Err SinkFailed → ⊥ }
    ensures sure { StoreStaysSure S.Store StoreFailed store.old store.new result }
{
    if page.count >= MOST_LINES {
        return Ok(AfterRound::Next(false));
    }
    let Ok(is_place) = stands_at_job(front) else {
        return Err(RunFault::Memory);
    };
    if is_place {
        save(alloc, run, name, front, page, store)?;
    }
    Ok(AfterRound::Next(is_place))
}

/// Writes the lines of a round that is done. Where there is a line after the last one that may be
/// written, the front stops at its member, and the answer is false.
fn write_round<R: Threads + Sync, O: Sink>(
    rt: &R,
    threads: u32,
    last: u64,
    front: &mut Front,
    page: &mut Page,
    out: &mut O,
) -> Result<bool, RunFault>
    requires last { last ≤ most_lines }
    requires room { page.old.count ≤ last }
    requires any { IsAny (O.held out.old) page.old front.old }
    ensures all { IfOk result (λ all. OnTrue all
        (GoesOn (O.held out.old) (O.held out.new) page.old page.new front.old front.new)) }
    ensures opened { IfOk result (λ all. OnTrue all (AreOpen front.new.entries)) }
    ensures room { IfOk result (λ all. OnTrue all (page.new.count ≤ last)) }
    ensures empty { OnOk result (IsEmpty page.new) }
    ensures full { IfOk result (λ all. OnFalse all
        (FillsUp (O.held out.old) (O.held out.new) page.old page.new last front.old front.new)) }
    ensures still { OnOk result (open_jobs front.new.entries ≡ open_jobs front.old.entries) }
    ensures part { WritesPart (O.held out.old) (O.held out.new) page.old front.old }
    ensures cause { HasCause SinkFailed (O.faults out.old) (O.faults out.new) result }
    ensures no_store { result ≡ Err StoreFailed → ⊥ }
    ensures sure { SinkStaysSure O.Sink SinkFailed out.old out.new result }
{
    match write_and_flush(rt, threads, last, front, page, out) {
        Ok(all) => Ok(all),
        Err(SinkFault::Failed) => Err(RunFault::Sink),
        Err(SinkFault::Memory) => Err(RunFault::Memory),
    }
}

/// Returns the same with the fault of the sink.
fn write_and_flush<R: Threads + Sync, O: Sink>(
    rt: &R,
    threads: u32,
    last: u64,
    front: &mut Front,
    page: &mut Page,
    out: &mut O,
) -> Result<bool, SinkFault>
    requires last { last ≤ most_lines }
    requires room { page.old.count ≤ last }
    requires any { IsAny (O.held out.old) page.old front.old }
    ensures all { IfOk result (λ all. OnTrue all
        (GoesOn (O.held out.old) (O.held out.new) page.old page.new front.old front.new)) }
    ensures opened { IfOk result (λ all. OnTrue all (AreOpen front.new.entries)) }
    ensures room { IfOk result (λ all. OnTrue all (page.new.count ≤ last)) }
    ensures empty { OnOk result (IsEmpty page.new) }
    ensures full { IfOk result (λ all. OnFalse all
        (FillsUp (O.held out.old) (O.held out.new) page.old page.new last front.old front.new)) }
    ensures still { OnOk result (open_jobs front.new.entries ≡ open_jobs front.old.entries) }
    ensures part { WritesPart (O.held out.old) (O.held out.new) page.old front.old }
    ensures cause { HasCause Failed (O.faults out.old) (O.faults out.new) result }
    ensures sure { SinkStaysSure O.Sink Failed out.old out.new result }
{
    let all = write_done(rt, threads, last, front, page, out)?;
    page.flush(rt, threads, out)?;
    Ok(all)
}

/// Ends a run that has a line after its last one. Where it is to pause there, its checkpoint is
/// put.
fn end_full<S: Store>(
    alloc: Global,
    run: &Run,
    name: &str,
    limit: Limit,
    front: &Front,
    page: &Page,
    store: &mut S,
) -> Result<Finish, RunFault>
    ensures finish { IfOk result (λ finish. finish
        ≡ (if limit.pauses then Finish.Paused else Finish.CutShort)) }
    ensures saves { S.tells store.old ≡ true → MatchBool limit.pauses
        (Saves (start_of run.now) page.now front.now
        (S.held store.old name.now) (S.held store.new name.now) result)
        (S.held store.new name.now ≡ S.held store.old name.now) }
    ensures others { KeepsOthers S.Store name.now store.old store.new }
    ensures cause { HasCause StoreFailed (S.faults store.old) (S.faults store.new) result }
    ensures no_sink { result ≡ Err SinkFailed → ⊥ }
    ensures sure { StoreStaysSure S.Store StoreFailed store.old store.new result }
{
    if !limit.pauses {
        return Ok(Finish::CutShort);
    }
    save(alloc, run, name, front, page, store)?;
    Ok(Finish::Paused)
}
