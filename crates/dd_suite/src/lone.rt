ghost use Rattle.std.specs.Prelude.{◌≡◌, ◌≤◌};
ghost use Rattle.dd_model.specs.Request.{IsValid};
ghost use Rattle.dd_suite_tasks.specs.Lone.{IsLoneEnding, run_result};
ghost use Rattle.dd_suite_tasks.specs.Outside.{KeepsSure};

use dd_branch::Search;
use dd_catalogue_rounds::{Workshop, write_catalogue};
use dd_front_jobs::{Pace, Portion};
use dd_pages_and_checkpoints::{Finish, Run, RunFault};
use dd_ports::{Gate, Sink, SinkFault};
use dd_suite_tasks::Ending;
use std::sync::Wait;
use std::thread::Threads;

/// Writes a catalogue or a shard without a checkpoint.
pub(crate) fn write_lone<R: Threads + Wait + Sync, G: Gate + Sync, O: Sink>(
    workshop: &Workshop<'_, R, G>,
    portion: &Portion,
    pace: Pace,
    out: &mut O,
) -> Ending
    requires valid { IsValid portion.now.request }
    ensures ending { IsLoneEnding result portion.now (O.held out.old) (O.held out.new)
        (O.faults out.old) (O.faults out.new) }
    ensures count { O.faults out.old ≤ O.faults out.new }
    ensures sure { KeepsSure O.Sink out.old out.new result }
{
    let Ok(run) = Run::first(workshop.alloc, *portion, pace, None) else {
        return Ending::Memory;
    };
    let mut search = Search::new(&portion.request);
    let ended = write_catalogue(workshop, &mut search, &run, out);
    // It does not pause, so that no line is told.
    Ending::of_run(as_run(ended), 0)
}

/// Returns the same with the fault of a run.
fn as_run(ended: Result<Finish, SinkFault>) -> Result<Finish, RunFault>
    ensures { result ≡ run_result ended }
{
    match ended {
        Ok(finish) => Ok(finish),
        Err(SinkFault::Failed) => Err(RunFault::Sink),
        Err(SinkFault::Memory) => Err(RunFault::Memory),
    }
}
