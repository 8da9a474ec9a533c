ghost use Rattle.std.specs.Prelude.{◌≡◌, IfOk, OnOk, true};
ghost use Rattle.dd_check.specs.Writing.{AddsSaved};
ghost use Rattle.dd_ports.specs.Causes.{HasCause};
ghost use Rattle.dd_ports.specs.States.{KeepsOthers, StoreStaysSure};
ghost use Rattle.dd_pages_and_checkpoints.specs.declared.fault.RunFault.TheVariants.{Store as StoreFailed, Sink as SinkFailed};
ghost use Rattle.dd_pages_and_checkpoints.specs.Runs.{start_of};
ghost use Rattle.dd_pages_and_checkpoints.specs.Saves.{IsCheckAt, Saves, SavesFirst};

use crate::fault::RunFault;
use crate::pages::Page;
use crate::run::Run;
use dd_check::{Checkpoint, write_checkpoint, write_shard};
use dd_front::Front;
use dd_front_jobs::Shard;
use dd_model::Memory;
use dd_ports::{Store, StoreFault};
use std::alloc::Global;

/// The checkpoint of a run that stands where its front does, with the lines of its page.
fn check_text(alloc: Global, run: &Run, front: &Front, page: &Page) -> Result<Vec<u8>, Memory>
    ensures { IfOk result (λ text. IsCheckAt (start_of run.now) page.now front.now text.items) }
{
    let number = run.number;
    let bytes = page.collected.written;
    let check = Checkpoint {
        run: number,
        request: run.portion.request,
        lines: u128::from(page.count),
        bytes,
        at: front.position()?,
    };
    let mut text = Vec::new(alloc);
    write_saved(&mut text, run.portion.shard, &check)?;
    Ok(text)
}

/// Appends the text of a checkpoint, after the line of the shard if there is one.
fn write_saved(out: &mut Vec<u8>, shard: Option<Shard>, check: &Checkpoint) -> Result<(), Memory>
    ensures { OnOk result (AddsSaved shard check.now out.old.items out.new.items) }
{
    match shard {
        Some(shard) => write_shard(out, shard, check),
        None => write_checkpoint(out, check),
    }
}

/// Puts the checkpoint of a run that stands where its front does, with the lines of its page, all
/// of which were written.
pub fn save<S: Store>(
    alloc: Global,
    run: &Run,
    name: &str,
    front: &Front,
    page: &Page,
    store: &mut S,
) -> Result<(), RunFault>
    ensures saves { S.tells store.old ≡ true → Saves (start_of run.now) page.now front.now
        (S.held store.old name.now) (S.held store.new name.now) result }
    ensures others { KeepsOthers S.Store name.now store.old store.new }
    ensures cause { HasCause StoreFailed (S.faults store.old) (S.faults store.new) result }
    ensures no_sink { result ≡ Err SinkFailed → ⊥ }
    ensures sure { StoreStaysSure S.Store StoreFailed store.old store.new result }
{
    let Ok(text) = check_text(alloc, run, front, page) else {
        return Err(RunFault::Memory);
    };
    match store.put(name, &text) {
        Ok(()) => Ok(()),
        Err(StoreFault::Failed) => Err(RunFault::Store),
        Err(StoreFault::Memory) => Err(RunFault::Memory),
    }
}

/// Puts the checkpoint of a run that is the first of a chain, before its first line.
pub fn save_first<S: Store>(
    alloc: Global,
    run: &Run,
    name: &str,
    front: &Front,
    page: &Page,
    store: &mut S,
) -> Result<(), RunFault>
    ensures saves { S.tells store.old ≡ true → SavesFirst (start_of run.now) page.now front.now
        (S.held store.old name.now) (S.held store.new name.now) result }
    ensures others { KeepsOthers S.Store name.now store.old store.new }
    ensures cause { HasCause StoreFailed (S.faults store.old) (S.faults store.new) result }
    ensures no_sink { result ≡ Err SinkFailed → ⊥ }
    ensures sure { StoreStaysSure S.Store StoreFailed store.old store.new result }
{
    if run.number != 1 {
        return Ok(());
    }
    save(alloc, run, name, front, page, store)?;
    Ok(())
}
