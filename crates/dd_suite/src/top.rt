ghost use Rattle.std.specs.Prelude.{◌≡◌, ◌⊎◌, ◌≤◌, ℕ, List, [], true, map, length};
ghost use Rattle.std.specs.Rc.{rc_str_bytes};
ghost use Rattle.std.specs.Io.KnownBytes.{Appends};
ghost use Rattle.dd_ports.specs.Causes.{Rose};
ghost use Rattle.dd_ports.specs.Grows.{GrowsByPrefix};
ghost use Rattle.dd_ports.specs.Texts.{SameTexts};
ghost use Rattle.dd_model.specs.Symbol.{Symbol};
ghost use Rattle.dd_front_jobs.specs.declared.portions.Portion.{Portion};
ghost use Rattle.dd_front_jobs.specs.Portions.{ArePortionMembers};
ghost use Rattle.dd_check.specs.declared.checkpoint.ResumeKind.{ResumeKind};
ghost use Rattle.dd_pages_and_checkpoints.specs.MostLines.{most_lines};
ghost use Rattle.dd_suite_tasks.specs.Words.{Order, AskForRun, AskFor, AskToResume, NameFile, AreTaken};
ghost use Rattle.dd_suite_tasks.specs.Beginnings.{HoldsSomeCheck};
ghost use Rattle.dd_suite_tasks.specs.Runs.{IsCallOf};
ghost use Rattle.dd_suite_tasks.specs.Output.{IsFileOutput, IsKnownOutput, AppendsOutput};
ghost use Rattle.dd_suite_tasks.specs.Arguments.{AreRefused, AreHeld, IsFileAccepted, IsCheckAccepted};
ghost use Rattle.dd_suite_tasks.specs.Arguments.{KeepUnder, SameButKept};
ghost use Rattle.dd_suite_tasks.specs.Merges.{AskToMerge, IsMergeOfHeld};
ghost use Rattle.dd_suite_tasks.specs.MergeEndings.{IsMergeAccepted};
ghost use Rattle.dd_suite_tasks.specs.Cuts.{Pauses, CutsShort, IsEndOfOwn};
ghost use Rattle.dd_suite_tasks.specs.Messages.{TellsOf, stream_of};
ghost use Rattle.dd_suite_tasks.specs.Stops.{IsOutcome};
ghost use Rattle.dd_suite_tasks.specs.Outside.{before_of, after_of, KeepsSure};

use crate::exercise::write_exercise;
use crate::kept::write_kept;
use crate::lone::write_lone;
use crate::resume::resume;
use dd_catalogue_rounds::Workshop;
use dd_model::Memory;
use dd_ports::{Gate, Sink, Store};
use dd_suite_tasks::{Ending, Status, Task, read_task, tell, write_file, write_merge};
use std::alloc::Global;
use std::rc::RcStr;
use std::sync::Wait;
use std::thread::Threads;

/// All that the program does. It takes the words after its name, writes on `out`, and writes a line
/// about the status on `err`. A fault of `err` changes no status.
pub fn run<R: Threads + Wait + Sync, S: Store, O: Sink, E: Sink, G: Gate + Sync>(
    rt: &R,
    alloc: Global,
    words: &[RcStr],
    store: &mut S,
    out: &mut O,
    err: &mut E,
    gate: &G,
) -> Status
    // Whatever the status, a prefix of the output went out, and after Done the whole.
    ensures prefix { (bytes : List ℕ)
        → IsKnownOutput (map rc_str_bytes words.now) (S.tells store.old) (S.held store.old) bytes
        → GrowsByPrefix (O.held out.old) (O.held out.new) bytes }
    ensures whole { result ≡ Status.Done
        → AppendsOutput (map rc_str_bytes words.now) (S.tells store.old)
        (S.held store.old) (O.held out.old) (O.held out.new) }

    // A call with words of a run is a run from where it has to begin, which leaves a checkpoint if
    // it has a name for it. Else it wrote nothing and changed nothing.
    ensures call { (order : Order) → AskForRun (map rc_str_bytes words.now) order
        → IsCallOf order
        result
        (before_of S.Store O.Sink store.old out.old) (after_of S.Store O.Sink store.new out.new) }
    ensures not_resumed { (kind : ResumeKind) (name : List ℕ)
        → AskToResume (map rc_str_bytes words.now) kind name
        → (HoldsSomeCheck kind (S.tells store.old) (S.held store.old name) → ⊥)
        → Appends (O.held out.old) (O.held out.new) []
        × (S.tells store.old ≡ true → SameTexts (S.held store.old) (S.held store.new)) }

    ensures usage { result ≡ Status.Usage → ¬ AreTaken (map rc_str_bytes words.now) }
    ensures not_taken { (¬ AreTaken (map rc_str_bytes words.now))
        → (result ≡ Status.Usage) ⊎ (result ≡ Status.Memory) }

    // A refused command has written nothing, nor has one whose file has no text, whatever the
    // status. Without a name for checkpoints a fault of the store comes before anything is written.
    ensures refused { result ≡ Status.Refused
        → AreRefused (map rc_str_bytes words.now) (S.tells store.old) (S.held store.old) }
    ensures quiet { (result ≡ Status.Refused) ⊎ ((result ≡ Status.StoreFault)
        × ((name : List ℕ) → KeepUnder (map rc_str_bytes words.now) name → ⊥))
        → Appends (O.held out.old) (O.held out.new) [] }
    ensures nothing { NameFile (map rc_str_bytes words.now)
        → ((text : List ℕ) → IsFileOutput
        (map rc_str_bytes words.now) (S.tells store.old) (S.held store.old) text → ⊥)
        → Appends (O.held out.old) (O.held out.new) [] }
    ensures not_merged { (names : List (List ℕ)) → AskToMerge (map rc_str_bytes words.now) names
        → ((text : List ℕ) → IsMergeOfHeld names (S.tells store.old) (S.held store.old) text → ⊥)
        → Appends (O.held out.old) (O.held out.new) [] }

    ensures store { S.tells store.old ≡ true → (S.tells store.new ≡ true)
        × SameButKept (map rc_str_bytes words.now) (S.held store.old) (S.held store.new) }
    ensures store_count { S.faults store.old ≤ S.faults store.new }
    ensures sink_count { O.faults out.old ≤ O.faults out.new }
    ensures store_fault { result ≡ Status.StoreFault
        → Rose (S.faults store.old) (S.faults store.new) }
    ensures sink_fault { result ≡ Status.SinkFault → Rose (O.faults out.old) (O.faults out.new) }
    ensures store_sure { S.sure store.old ≡ true
        → AreHeld (map rc_str_bytes words.now) (S.tells store.old) (S.held store.old)
        → (S.faults store.new ≡ S.faults store.old) × (result ≡ Status.StoreFault → ⊥) }
    ensures sink_sure { O.sure out.old ≡ true
        → (O.faults out.new ≡ O.faults out.old) × (result ≡ Status.SinkFault → ⊥) }

    // A run pauses only if there are more lines than it is to write. It is cut short only if it has
    // lines of numbers over ten to the 18th, and then the lines before went out. After Done it has
    // neither.
    ensures paused { result ≡ Status.Paused
        → Pauses (map rc_str_bytes words.now) (S.tells store.old) (S.held store.old)
        (O.held out.old) (O.held out.new) }
    ensures cut_short { result ≡ Status.TooManyLines
        → CutsShort (map rc_str_bytes words.now) (S.tells store.old) (S.held store.old)
        (O.held out.old) (O.held out.new) }
    ensures not_cut { result ≡ Status.Done → (p : Portion) (members : List Symbol)
        → AskFor (map rc_str_bytes words.now) p → ArePortionMembers p members
        → length members ≤ most_lines }

    // Taken words end as Done, as paused or as cut short if the file, the checkpoint or the files
    // of a merge are accepted and no count of faults increased, unless it is out of memory.
    ensures complete { AreTaken (map rc_str_bytes words.now)
        → IsFileAccepted (map rc_str_bytes words.now) (S.tells store.old) (S.held store.old)
        → IsCheckAccepted (map rc_str_bytes words.now) (S.tells store.old) (S.held store.old)
        → IsMergeAccepted (map rc_str_bytes words.now) (S.tells store.old) (S.held store.old)
        → (¬ Rose (S.faults store.old) (S.faults store.new))
        → (¬ Rose (O.faults out.old) (O.faults out.new))
        → IsEndOfOwn result ⊎ (result ≡ Status.Memory) }

    // `err` has the whole line of the ending. It has a prefix of it if a write on `err` failed or
    // ran out of memory, or if there was no memory to make the line of a refusal.
    ensures err { TellsOf result
        (map rc_str_bytes words.now) (S.tells store.old) (S.held store.old)
        (stream_of E.Sink err.old) (stream_of E.Sink err.new) }
    ensures err_count { E.faults err.old ≤ E.faults err.new }
{
    let ending = perform(&Workshop { rt, alloc, gate }, words, store, out);
    let _ = tell(alloc, ending, err);
    ending.status()
}

/// Does what the words ask for.
fn perform<R: Threads + Wait + Sync, S: Store, O: Sink, G: Gate + Sync>(
    workshop: &Workshop<'_, R, G>,
    words: &[RcStr],
    store: &mut S,
    out: &mut O,
) -> Ending
    ensures outcome { IsOutcome (map rc_str_bytes words.now)
        result
        (before_of S.Store O.Sink store.old out.old) (after_of S.Store O.Sink store.new out.new) }
    ensures tells { S.tells store.old ≡ true → S.tells store.new ≡ true }
    ensures store_count { S.faults store.old ≤ S.faults store.new }
    ensures sink_count { O.faults out.old ≤ O.faults out.new }
    ensures store_sure { S.sure store.old ≡ true
        → AreHeld (map rc_str_bytes words.now) (S.tells store.old) (S.held store.old)
        → (S.faults store.new ≡ S.faults store.old) × (result ≡ Ending.StoreFault → ⊥) }
    ensures sink_sure { KeepsSure O.Sink out.old out.new result }
{
    let alloc = workshop.alloc;
    let task = match read_task(alloc, words) {
        Ok(Some(task)) => task,
        Ok(None) => return Ending::Usage,
        Err(Memory) => return Ending::Memory,
    };
    match task {
        Task::Alone(portion, pace) => write_lone(workshop, &portion, pace, out),
        Task::Kept {
            portion,
            name,
            pace,
            pause,
        } => write_kept(workshop, &portion, name.as_str(), pace, pause, store, out),
        Task::Resume {
            kind,
            name,
            pace,
            pause,
        } => resume(workshop, kind, name.as_str(), pace, pause, store, out),
        Task::OnFile(command, name) => write_file(alloc, command, name.as_str(), store, out),
        Task::Merge(names) => write_merge(workshop.rt, alloc, names.as_slice(), store, out),
        Task::Exercise { start, count } => write_exercise(alloc, start, count, out),
    }
}
