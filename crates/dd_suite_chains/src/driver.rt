ghost use Rattle.std.specs.Prelude.{◌≡◌, ◌≢◌, ◌≤◌, List, None, IfOk, OnErr, map, length};
ghost use Rattle.std.specs.Rc.{rc_str_bytes};
ghost use Rattle.dd_ports.specs.Causes.{Rose};
ghost use Rattle.dd_ports.specs.Stores.{memory_store_held};
ghost use Rattle.dd_ports.specs.declared.memory_sink.MemorySink.{MemorySink};
ghost use Rattle.dd_suite_tasks.specs.declared.status.Status.TheVariants as status;
ghost use Rattle.dd_suite_chains.specs.Words.{AskToKeep, resume_words};
ghost use Rattle.dd_suite_chains.specs.Runs.{kept_of, HaveRun};
ghost use Rattle.dd_suite_chains.specs.Drives.{Drives};
ghost use Rattle.dd_suite_chains.specs.Sentences.{IsItsText, IsItsFront, HasPaused, HasTooMany};
ghost use Rattle.dd_suite_chains.specs.Sentences.{HoldsOutOfRange, HasRisen};

use crate::after_run::AfterRun;
use crate::chain::Chain;
use crate::driven::Drive;
use crate::words::words_to_go_on;
use dd_catalogue_rounds::Workshop;
use dd_model::Memory;
use dd_ports::{Gate, MemorySink, MemoryStore};
use std::alloc::Global;
use std::rc::RcStr;
use std::sync::Wait;
use std::thread::Threads;

/// Makes the run of the words into the first sink, and then a run into one sink after the other
/// that resumes from the name. It ends if a run has come to its end, if the sinks are used, or if
/// the name holds nothing. Returns how the last run ended, how many runs there were, and what they
/// wrote together. A run that is not the last counts as many bytes as its checkpoint says.
pub fn drive<R: Threads + Wait + Sync, G: Gate + Sync>(
    rt: &R,
    alloc: Global,
    words: &[RcStr],
    name: &str,
    store: &mut MemoryStore,
    sinks: &mut [MemorySink],
    gate: &G,
) -> Result<Drive, Memory>
    requires asked { AskToKeep (map rc_str_bytes words.now) name.now }
    requires empty { memory_store_held store.old name.now ≡ None }
    requires some { 1 ≤ length sinks.old }
    requires few { length sinks.old ≤ 1000 }
    ensures drives { IfOk result (Drives (map rc_str_bytes words.now) name.now
        (kept_of store.old) (kept_of store.new) sinks.old sinks.new) }
    // If it is out of memory, it stops between two runs.
    ensures stopped { OnErr result (HaveRun (map rc_str_bytes words.now) name.now
        (kept_of store.old) (kept_of store.new) sinks.old sinks.new) }

    // However often its runs were stopped, they have written a prefix of the catalogue, and all of
    // it if the last one came to its end.
    ensures front { IfOk result (λ d. IsItsFront (map rc_str_bytes words.now) d.joined.items) }
    ensures whole { IfOk result (λ d. d.status ≡ status.Done
        → IsItsText (map rc_str_bytes words.now) d.joined.items) }

    // Why the last run ended.
    ensures store_fault { IfOk result (λ d. d.status ≡ status.StoreFault
        → Rose (kept_of store.old).faults (kept_of store.new).faults) }
    ensures sink_fault { IfOk result (λ d. d.status ≡ status.SinkFault
        → HasRisen sinks.old sinks.new d.runs) }
    ensures paused { IfOk result (λ d. d.status ≡ status.Paused → (d.runs ≡ 1)
        × HasPaused (map rc_str_bytes words.now) (kept_of store.old) sinks.old sinks.new) }
    ensures cut_short { IfOk result (λ d. d.status ≡ status.TooManyLines
        → HasTooMany (map rc_str_bytes words.now)) }
    ensures refused { IfOk result (λ d. d.status ≡ status.Refused
        → HoldsOutOfRange (memory_store_held store.new name.now)) }
    ensures usage { IfOk result (λ d. d.status ≢ status.Usage) }
{
    let resume = words_to_go_on(alloc, name)?;
    let workshop = Workshop { rt, alloc, gate };
    make_runs(&workshop, words, &resume, name, store, sinks)
}

/// Makes the runs of a chain.
fn make_runs<'a, R: Threads + Wait + Sync, G: Gate + Sync>(
    workshop: &Workshop<'_, R, G>,
    words: &'a [RcStr],
    resume: &'a [RcStr],
    name: &str,
    store: &mut MemoryStore,
    sinks: &mut [MemorySink],
) -> Result<Drive, Memory>
    requires asked { AskToKeep (map rc_str_bytes words.now) name.now }
    requires resume { map rc_str_bytes resume.now ≡ resume_words name.now }
    requires some { 1 ≤ length sinks.old }
    requires few { length sinks.old ≤ 1000 }
    ensures drives { IfOk result (Drives (map rc_str_bytes words.now) name.now
        (kept_of store.old) (kept_of store.new) sinks.old sinks.new) }
    ensures stopped { OnErr result (HaveRun (map rc_str_bytes words.now) name.now
        (kept_of store.old) (kept_of store.new) sinks.old sinks.new) }
{
    let mut chain = Chain {
        words,
        number: Some(1),
        joined: Vec::new(workshop.alloc),
    };
    let count = sinks.len();
    for k in 0..count {
        match chain.run_next(workshop, name, store, sinks, k)? {
            AfterRun::Last(status) => {
                return Ok(Drive {
                    status,
                    runs: k as u32 + 1,
                    joined: chain.joined,
                });
            }
            AfterRun::Next => chain.words = resume,
        }
    }
    unreachable!()
}
