ghost use Rattle.std.specs.Prelude.{◌≡◌, ◌≢◌, ◌⊎◌, ◌<◌, List, None, Some, MatchOption, false, true, map, length};
ghost use Rattle.std.specs.Rc.{rc_str_bytes};
ghost use Rattle.dd_ports.specs.Stores.{memory_store_held};
ghost use Rattle.dd_suite_tasks.specs.Words.{Order, AskForRun};
ghost use Rattle.dd_suite_tasks.specs.declared.status.Status.TheVariants.{Done};
ghost use Rattle.dd_suite_chains.specs.Runs.{kept_of};
ghost use Rattle.dd_suite_chains.specs.Making.{RunsInto};

use dd_catalogue_rounds::Workshop;
use dd_ports::{Gate, MemorySink, MemoryStore, SureSink};
use dd_suite::run;
use dd_suite_tasks::Status;
use std::rc::RcStr;
use std::sync::Wait;
use std::thread::Threads;

/// Makes one run, into the sink of this number.
pub(crate) fn run_into<R: Threads + Wait + Sync, G: Gate + Sync>(
    workshop: &Workshop<'_, R, G>,
    words: &[RcStr],
    store: &mut MemoryStore,
    sinks: &mut [MemorySink],
    k: usize,
) -> Status
    requires asked { (order : Order) × AskForRun (map rc_str_bytes words.now) order }
    requires inside { k < length sinks.old }
    ensures { RunsInto (map rc_str_bytes words.now) (kept_of store.old) (kept_of store.new)
        sinks.old sinks.new k result }
{
    let mut err = SureSink::new(workshop.alloc);
    run(
        workshop.rt,
        workshop.alloc,
        words,
        store,
        &mut sinks[k],
        &mut err,
        workshop.gate,
    )
}

/// The text under the name, where a chain goes on after a run with this status, if another sink is
/// left.
pub(crate) fn text_to_go_on<'a>(
    status: Status,
    more: bool,
    store: &'a MemoryStore,
    name: &str,
) -> Option<&'a [u8]>
    ensures { MatchOption result
        ((status ≡ Done) ⊎ ((more ≡ false) ⊎ (memory_store_held store.now name.now ≡ None)))
        (λ text. (more ≡ true) × (status ≢ Done)
        × (memory_store_held store.now name.now ≡ Some text.now)) }
{
    if !more {
        return None;
    }
    match status {
        Status::Done => None,
        _ => store.held(name),
    }
}
