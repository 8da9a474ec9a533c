ghost use Rattle.std.specs.Prelude.{◌≡◌, ◌≤◌, ℕ, List};
ghost use Rattle.dd_ports.specs.Grows.{GrowsByPrefix};
ghost use Rattle.dd_suite_exercise.specs.Exercise.{IsExerciseText};
ghost use Rattle.dd_suite_tasks.specs.Stops.{IsWriteEnding, AppendsExercise};
ghost use Rattle.dd_suite_tasks.specs.Outside.{KeepsSure};

use dd_model::Memory;
use dd_ports::Sink;
use dd_suite_tasks::{Ending, write_text};
use std::alloc::Global;

/// Writes the text of an exercise of `count` items from a number on.
pub(crate) fn write_exercise<O: Sink>(alloc: Global, start: u32, count: u32, out: &mut O) -> Ending
    requires start { start ≤ 2147483647 }
    requires count { count ≤ 10000 }
    ensures prefix { (text : List ℕ) → IsExerciseText start count text
        → GrowsByPrefix (O.held out.old) (O.held out.new) text }
    ensures whole { result ≡ Ending.Done
        → AppendsExercise start count (O.held out.old) (O.held out.new) }
    ensures cause { IsWriteEnding result (O.faults out.old) (O.faults out.new) }
    ensures count { O.faults out.old ≤ O.faults out.new }
    ensures sure { KeepsSure O.Sink out.old out.new result }
{
    match dd_suite_exercise::exercise(alloc, start, count) {
        Ok(text) => write_text(&text, out),
        Err(Memory) => Ending::Memory,
    }
}
