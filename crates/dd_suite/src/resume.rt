ghost use Rattle.std.specs.Prelude.{◌≡◌, ◌≤◌, IfOk, IfErr, IsSome, true};
ghost use Rattle.dd_model.specs.Request.{IsValid};
ghost use Rattle.dd_model.specs.Position.{IsPosition};
ghost use Rattle.dd_check.specs.declared.checkpoint.ResumeKind.TheVariants.{Catalogues, Shards};
ghost use Rattle.dd_check.specs.Calls.{kind_of, Resume};
ghost use Rattle.dd_check.specs.ShardChecks.{IsAcceptedText};
ghost use Rattle.dd_check.specs.ChainStarts.{next_start};
ghost use Rattle.dd_pages_and_checkpoints.specs.Runs.{start_of};
ghost use Rattle.dd_suite_tasks.specs.Beginnings.{HoldsCheck};
ghost use Rattle.dd_suite_tasks.specs.Outcomes.{IsRunOutcome, IsReadStop, IsHeldStop};
ghost use Rattle.dd_suite_tasks.specs.Outside.{before_of, after_of, KeepsTexts, KeepsSure};
ghost use Rattle.dd_pages_and_checkpoints.specs.MostLines.{most_lines};

use crate::kept::keep_run;
use dd_catalogue_rounds::Workshop;
use dd_check::{CheckFault, Checkpoint, ResumeKind, ShardFault, read_checkpoint, read_shard};
use dd_front_jobs::{Pace, Portion, Shard};
use dd_pages_and_checkpoints::Run;
use dd_ports::{Gate, Sink, Store, StoreFault};
use dd_suite_tasks::{Ending, fetch_all, fetch_front};
use std::alloc::Global;
use std::sync::Wait;
use std::thread::Threads;

/// The most bytes of a checkpoint text of a catalogue.
const MOST_BYTES: usize = 4096;

/// How many bytes of a text of a shard are read: more than such a text can have.
const MOST_SHARD_BYTES: usize = 8192;

/// What a text says from which a run resumes.
#[derive(Drop)]
struct Saved {
    shard: Option<Shard>,
    check: Checkpoint,
}

/// The checkpoint whose text of a kind a name holds, and its shard.
fn fetch_check<S: Store>(
    alloc: Global,
    kind: ResumeKind,
    name: &str,
    store: &mut S,
) -> Result<Saved, Ending>
    ensures check { IfOk result (λ saved. (kind_of saved.shard ≡ kind)
        × HoldsCheck saved.shard (S.tells store.old) (S.held store.old name.now) saved.check) }
    ensures why { IfErr result (λ ending.
        IsHeldStop kind ending (S.tells store.old) (S.held store.old name.now)
        (S.faults store.old) (S.faults store.new)) }
    ensures same { KeepsTexts S.Store store.old store.new }
    ensures count { S.faults store.old ≤ S.faults store.new }
    ensures sure { S.sure store.old ≡ true → S.sure store.new ≡ true }
    ensures passes { S.sure store.old ≡ true → IsSome (S.held store.old name.now)
        → (S.faults store.new ≡ S.faults store.old)
        × IfErr result (λ ending. ending ≡ Ending.StoreFault → ⊥) }
{
    match kind {
        ResumeKind::Catalogues => fetch_catalogue(alloc, name, store),
        ResumeKind::Shards => fetch_shard(alloc, name, store),
    }
}

/// The checkpoint of a catalogue whose text a name holds.
fn fetch_catalogue<S: Store>(alloc: Global, name: &str, store: &mut S) -> Result<Saved, Ending>
    ensures check { IfOk result (λ saved. (kind_of saved.shard ≡ Catalogues)
        × HoldsCheck saved.shard (S.tells store.old) (S.held store.old name.now) saved.check) }
    ensures why { IfErr result (λ ending.
        IsHeldStop Catalogues ending (S.tells store.old) (S.held store.old name.now)
        (S.faults store.old) (S.faults store.new)) }
    ensures same { KeepsTexts S.Store store.old store.new }
    ensures count { S.faults store.old ≤ S.faults store.new }
    ensures sure { S.sure store.old ≡ true → S.sure store.new ≡ true }
    ensures passes { S.sure store.old ≡ true → IsSome (S.held store.old name.now)
        → (S.faults store.new ≡ S.faults store.old)
        × IfErr result (λ ending. ending ≡ Ending.StoreFault → ⊥) }
{
    let bytes = match fetch_all(alloc, name, MOST_BYTES, store) {
        Ok(Some(bytes)) => bytes,
        Ok(None) => return Err(Ending::RefusedCheck(ShardFault::Check(CheckFault::Long))),
        Err(StoreFault::Failed) => return Err(Ending::StoreFault),
        Err(StoreFault::Memory) => return Err(Ending::Memory),
    };
    catalogue_of(alloc, &bytes)
}

/// The checkpoint of a text of a catalogue.
fn catalogue_of(alloc: Global, bytes: &[u8]) -> Result<Saved, Ending>
    ensures check { IfOk result (λ saved. (kind_of saved.shard ≡ Catalogues)
        × IsAcceptedText saved.shard bytes.now saved.check) }
    ensures why { IfErr result (IsReadStop Catalogues bytes.now) }
{
    match read_checkpoint(alloc, bytes) {
        Ok(check) => Ok(Saved { shard: None, check }),
        Err(CheckFault::Memory) => Err(Ending::Memory),
        Err(fault) => Err(Ending::RefusedCheck(ShardFault::Check(fault))),
    }
}

/// The checkpoint of a shard whose text a name holds, and the shard.
fn fetch_shard<S: Store>(alloc: Global, name: &str, store: &mut S) -> Result<Saved, Ending>
    ensures check { IfOk result (λ saved. (kind_of saved.shard ≡ Shards)
        × HoldsCheck saved.shard (S.tells store.old) (S.held store.old name.now) saved.check) }
    ensures why { IfErr result (λ ending.
        IsHeldStop Shards ending (S.tells store.old) (S.held store.old name.now)
        (S.faults store.old) (S.faults store.new)) }
    ensures same { KeepsTexts S.Store store.old store.new }
    ensures count { S.faults store.old ≤ S.faults store.new }
    ensures sure { S.sure store.old ≡ true → S.sure store.new ≡ true }
    ensures passes { S.sure store.old ≡ true → IsSome (S.held store.old name.now)
        → (S.faults store.new ≡ S.faults store.old)
        × IfErr result (λ ending. ending ≡ Ending.StoreFault → ⊥) }
{
    let bytes = match fetch_front(alloc, name, MOST_SHARD_BYTES, store) {
        Ok(bytes) => bytes,
        Err(StoreFault::Failed) => return Err(Ending::StoreFault),
        Err(StoreFault::Memory) => return Err(Ending::Memory),
    };
    shard_of(alloc, &bytes)
}

/// The checkpoint of a text of a shard, and the shard.
fn shard_of(alloc: Global, bytes: &[u8]) -> Result<Saved, Ending>
    ensures check { IfOk result (λ saved. (kind_of saved.shard ≡ Shards)
        × IsAcceptedText saved.shard bytes.now saved.check) }
    ensures why { IfErr result (IsReadStop Shards bytes.now) }
{
    match read_shard(alloc, bytes) {
        Ok((shard, check)) => Ok(Saved {
            shard: Some(shard),
            check,
        }),
        Err(ShardFault::Memory) => Err(Ending::Memory),
        Err(fault) => Err(Ending::RefusedCheck(fault)),
    }
}

/// Resumes from the checkpoint of a name, of a catalogue or of a shard, by a run with the next
/// number.
pub(crate) fn resume<R: Threads + Wait + Sync, S: Store, G: Gate + Sync, O: Sink>(
    workshop: &Workshop<'_, R, G>,
    kind: ResumeKind,
    name: &str,
    pace: Pace,
    pause: Option<u32>,
    store: &mut S,
    out: &mut O,
) -> Ending
    ensures outcome { IsRunOutcome
        (record { task = Resume kind name.now; round = pace.round; pause = pause })
        result
        (before_of S.Store O.Sink store.old out.old) (after_of S.Store O.Sink store.new out.new) }
    ensures tells { S.tells store.old ≡ true → S.tells store.new ≡ true }
    ensures store_count { S.faults store.old ≤ S.faults store.new }
    ensures sink_count { O.faults out.old ≤ O.faults out.new }
    ensures store_sure { S.sure store.old ≡ true → IsSome (S.held store.old name.now)
        → (S.faults store.new ≡ S.faults store.old) × (result ≡ Ending.StoreFault → ⊥) }
    ensures sink_sure { KeepsSure O.Sink out.old out.new result }
{
    let saved = match fetch_check(workshop.alloc, kind, name, store) {
        Ok(saved) => saved,
        Err(ending) => return ending,
    };
    let run = next_run(saved.check, saved.shard, pace, pause);
    keep_run(workshop, &run, name, store, out)
}

/// The run after that of a checkpoint, of a catalogue or of the shard if there is one.
fn next_run(check: Checkpoint, shard: Option<Shard>, pace: Pace, pause: Option<u32>) -> Run
    requires run { (1 ≤ check.run) × (check.run ≤ 999999999) }
    requires lines { check.lines ≤ most_lines }
    requires valid { IsValid check.request }
    requires position { IsPosition check.at }
    ensures start { start_of result ≡ next_start shard check }
    ensures pace { result.pace ≡ pace }
    ensures pause { result.pause ≡ pause }
{
    Run {
        number: check.run + 1,
        portion: Portion {
            request: check.request,
            shard,
        },
        at: check.at,
        lines: check.lines as u64,
        pace,
        pause,
    }
}
