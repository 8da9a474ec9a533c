ghost use Rattle.std.specs.Prelude.{◌≡◌, ◌≤◌, ℕ, Some, true};
ghost use Rattle.dd_model.specs.Request.{IsValid};
ghost use Rattle.dd_check.specs.Calls.{Begin};
ghost use Rattle.dd_pages_and_checkpoints.specs.Runs.{start_of, IsPause};
ghost use Rattle.dd_suite_tasks.specs.Outcomes.{IsRunOutcome, EndsRunFrom};
ghost use Rattle.dd_suite_tasks.specs.Outside.{before_of, after_of, KeepsSure};

use dd_branch::Search;
use dd_catalogue_rounds::{Workshop, write_run};
use dd_front_jobs::{Pace, Portion};
use dd_pages_and_checkpoints::Run;
use dd_ports::{Gate, Sink, Store};
use dd_suite_tasks::Ending;
use std::sync::Wait;
use std::thread::Threads;

/// Writes a catalogue or a shard by a run that keeps its checkpoint under a name.
pub(crate) fn write_kept<R: Threads + Wait + Sync, S: Store, G: Gate + Sync, O: Sink>(
    workshop: &Workshop<'_, R, G>,
    portion: &Portion,
    name: &str,
    pace: Pace,
    pause: Option<u32>,
    store: &mut S,
    out: &mut O,
) -> Ending
    requires valid { IsValid portion.now.request }
    ensures outcome { IsRunOutcome
        (record {
          task = Begin portion.now (Some name.now);
          round = pace.round;
          pause = pause;
        })
        result
        (before_of S.Store O.Sink store.old out.old) (after_of S.Store O.Sink store.new out.new) }
    ensures tells { S.tells store.old ≡ true → S.tells store.new ≡ true }
    ensures store_count { S.faults store.old ≤ S.faults store.new }
    ensures sink_count { O.faults out.old ≤ O.faults out.new }
    ensures store_sure { S.sure store.old ≡ true
        → (S.faults store.new ≡ S.faults store.old) × (result ≡ Ending.StoreFault → ⊥) }
    ensures sink_sure { KeepsSure O.Sink out.old out.new result }
{
    let Ok(run) = Run::first(workshop.alloc, *portion, pace, pause) else {
        return Ending::Memory;
    };
    keep_run(workshop, &run, name, store, out)
}

/// Writes the lines of a run that keeps its checkpoint under a name.
pub(crate) fn keep_run<R: Threads + Wait + Sync, S: Store, G: Gate + Sync, O: Sink>(
    workshop: &Workshop<'_, R, G>,
    run: &Run,
    name: &str,
    store: &mut S,
    out: &mut O,
) -> Ending
    ensures run { EndsRunFrom
        (start_of run.now) name.now run.now.pace.round run.now.pause
        result
        (before_of S.Store O.Sink store.old out.old) (after_of S.Store O.Sink store.new out.new) }
    ensures tells { S.tells store.old ≡ true → S.tells store.new ≡ true }
    ensures store_count { S.faults store.old ≤ S.faults store.new }
    ensures sink_count { O.faults out.old ≤ O.faults out.new }
    ensures store_sure { S.sure store.old ≡ true
        → (S.faults store.new ≡ S.faults store.old) × (result ≡ Ending.StoreFault → ⊥) }
    ensures sink_sure { KeepsSure O.Sink out.old out.new result }
{
    let mut search = Search::new(&run.portion.request);
    let ended = write_run(workshop, &mut search, run, name, store, out);
    Ending::of_run(ended, last_before_pause(run))
}

/// The number of the last line before the pause of a run, where a line may have it.
fn last_before_pause(run: &Run) -> u64
    ensures { (last : ℕ) → IsPause run.now.lines run.now.pause last → result ≡ last }
{
    let lines = run.pause.map_or(0, u64::from);
    run.lines.saturating_add(lines)
}
