ghost use Rattle.std.specs.Prelude.{◌≡◌, ◌≤◌, ℕ, List, true};
ghost use Rattle.dd_ports.specs.declared.sink.SinkFault.TheVariants.{Failed};
ghost use Rattle.dd_ports.specs.Causes.{HasCause};
ghost use Rattle.dd_ports.specs.States.{SinkStaysSure};
ghost use Rattle.dd_pages_and_checkpoints.specs.Runs.{start_of};
ghost use Rattle.dd_pages_and_checkpoints.specs.Pages.{IsEmpty};
ghost use Rattle.dd_catalogue_rounds.specs.Works.{IsBegun};
ghost use Rattle.dd_pages_and_checkpoints.specs.Outputs.{IsOutput};

use crate::emission::write_done;
use crate::rounds::{do_long_round, lone_front_of};
use crate::workshop::Workshop;
use dd_front::{Finder, Front};
use dd_pages_and_checkpoints::{Finish, Page, Run};
use dd_ports::{Gate, Sink, SinkFault};
use std::sync::Wait;
use std::thread::Threads;

/// Writes the lines of a run that keeps no checkpoint: does its jobs round by round, and writes the
/// lines of what was found page by page. Neither the workers nor what they choose changes what is
/// written.
pub fn write_catalogue<R: Threads + Wait + Sync, F: Finder + Sync, G: Gate + Sync, O: Sink>(
    workshop: &Workshop<'_, R, G>,
    finder: &mut F,
    run: &Run,
    out: &mut O,
) -> Result<Finish, SinkFault>
    requires request { F.request finder.old ≡ run.now.portion.request }
    ensures request { F.request finder.new ≡ F.request finder.old }
    ensures output { (output : List ℕ) × IsOutput (start_of run.now) run.now.pause
        (O.held out.old) (O.held out.new) result output }
    ensures cause { HasCause Failed (O.faults out.old) (O.faults out.new) result }
    ensures sure { SinkStaysSure O.Sink Failed out.old out.new result }
{
    let Ok(mut front) = lone_front_of(workshop.alloc, finder, run) else {
        return Err(SinkFault::Memory);
    };
    let mut page = Page::new(workshop.alloc, run.lines);
    write_rounds(workshop, finder, run, &mut front, &mut page, out)
}

/// Writes the lines of a run from its first round on.
fn write_rounds<R: Threads + Wait + Sync, F: Finder + Sync, G: Gate + Sync, O: Sink>(
    workshop: &Workshop<'_, R, G>,
    finder: &mut F,
    run: &Run,
    front: &mut Front,
    page: &mut Page,
    out: &mut O,
) -> Result<Finish, SinkFault>
    requires request { F.request finder.old ≡ run.now.portion.request }
    requires begun { IsBegun (start_of run.now) front.old }
    requires empty { IsEmpty page.old }
    requires count { page.old.count ≡ run.now.lines }
    requires bytes { page.old.collected.written ≡ 0 }
    ensures request { F.request finder.new ≡ F.request finder.old }
    ensures output { (output : List ℕ) × IsOutput (start_of run.now) run.now.pause
        (O.held out.old) (O.held out.new) result output }
    ensures cause { HasCause Failed (O.faults out.old) (O.faults out.new) result }
    ensures sure { SinkStaysSure O.Sink Failed out.old out.new result }
{
    let limit = run.limit();
    while let Ok(more) = do_long_round(workshop, finder, run.pace, front) {
        if !more {
            page.flush(workshop.rt, run.pace.workers(), out)?;
            return Ok(Finish::Whole);
        }
        if !write_done(
            workshop.rt,
            run.pace.workers(),
            limit.last,
            front,
            page,
            out,
        )? {
            page.flush(workshop.rt, run.pace.workers(), out)?;
            return Ok(limit.finish());
        }
    }
    Err(SinkFault::Memory)
}
