ghost use Rattle.std.specs.Prelude.{◌≤◌, IfOk};
ghost use Rattle.dd_suite_exercise.specs.Exercise.{IsExerciseText};

use crate::draws::Generator;
use crate::items::next_item;
use crate::seeds::seeds;
use crate::tallies::Tally;
use dd_model::Memory;
use std::alloc::Global;

/// Returns what an exercise writes that makes `count` items from a number on. It fails only if an
/// allocation fails.
pub fn exercise(alloc: Global, start: u32, count: u32) -> Result<Vec<u8>, Memory>
    requires start { start ≤ 2147483647 }
    requires count { count ≤ 10000 }
    ensures { IfOk result (λ text. IsExerciseText start count text.items) }
{
    let seeds = seeds(alloc)?;
    let mut generator = Generator::start(start);
    let mut tally = Tally::new(alloc);
    for _ in 0..count {
        let form = next_item(alloc, &seeds, &mut generator)?;
        tally.add(alloc, &form)?;
    }
    tally.text(alloc, count)
}
