ghost use Rattle.std.specs.Prelude.{◌≡◌, ◌<◌, List, IfOk, map, length};
ghost use Rattle.std.specs.Rc.{rc_str_bytes};
ghost use Rattle.dd_suite_tasks.specs.Words.{Order, AskForRun};
ghost use Rattle.dd_suite_tasks.specs.declared.status.Status.{Status};
ghost use Rattle.dd_suite_chains.specs.Runs.{kept_of};
ghost use Rattle.dd_suite_chains.specs.Making.{RunsInto};
ghost use Rattle.dd_suite_chains.specs.Turns.{IsTurn};

use crate::after_run::AfterRun;
use crate::parts::add_part;
use crate::runs::{run_into, text_to_go_on};
use dd_catalogue_rounds::Workshop;
use dd_model::Memory;
use dd_ports::{Gate, MemorySink, MemoryStore};
use std::rc::RcStr;
use std::sync::Wait;
use std::thread::Threads;

/// What a chain of runs holds between two of them.
#[derive(Drop)]
pub(crate) struct Chain<'a> {
    /// The words of the next run.
    pub words: &'a [RcStr],
    /// The number of the next run, if it can begin.
    pub number: Option<u64>,
    /// What the runs so far have written together.
    pub joined: Vec<u8>,
}

impl Chain<'_> {
    /// Makes the next run, into the sink with the number `k`, and returns what comes after it.
    /// Appends to `joined` what the run gives. If another run follows, it sets `number`, and the
    /// caller sets `words`. The run has been made even if memory runs out afterwards.
    pub fn run_next<R: Threads + Wait + Sync, G: Gate + Sync>(
        &mut self,
        workshop: &Workshop<'_, R, G>,
        name: &str,
        store: &mut MemoryStore,
        sinks: &mut [MemorySink],
        k: usize,
    ) -> Result<AfterRun, Memory>
        requires asked { (order : Order) × AskForRun (map rc_str_bytes self.old.words.now) order }
        requires inside { k < length sinks.old }
        ensures ran { (status : Status) × RunsInto (map rc_str_bytes self.old.words.now)
            (kept_of store.old) (kept_of store.new) sinks.old sinks.new k status }
        ensures turn { IfOk result (IsTurn (map rc_str_bytes self.old.words.now) name.now
            (kept_of store.old) (kept_of store.new) sinks.old sinks.new k self.old.number
            self.old.joined.items self.new.joined.items self.new.number) }
    {
        let more = k + 1 < sinks.len();
        let start = sinks[k].held().len();
        let status = run_into(workshop, self.words, store, sinks, k);
        let output = &sinks[k].held()[start..];
        match text_to_go_on(status, more, store, name) {
            Some(text) => {
                self.number = add_part(
                    workshop.alloc,
                    text,
                    self.number,
                    output,
                    &mut self.joined,
                )?;
                Ok(AfterRun::Next)
            }
            None => {
                self.joined.extend_from_slice(output)?;
                Ok(AfterRun::Last(status))
            }
        }
    }
}
