ghost use Rattle.std.specs.Prelude.{◌≡◌, ◌≤◌, IfOk};
ghost use Rattle.dd_model.specs.Request.{IsValid};
ghost use Rattle.dd_model.specs.Position.{IsPosition};
ghost use Rattle.dd_model.specs.Text.{beginning};
ghost use Rattle.dd_pages_and_checkpoints.specs.MostLines.{most_lines};

use crate::limit::{Limit, MOST_LINES};
use dd_front_jobs::{Pace, Portion};
use dd_model::{Job, Memory, Position, Prefix};
use std::alloc::Global;

/// A run of a chain: where it begins, how it is worked at, and when it is to pause.
#[derive(Drop)]
pub struct Run {
    /// The number of the run in its chain, counted from 1.
    pub number: u32,
    /// What is asked for.
    pub portion: Portion,
    /// The members before it are left out.
    pub at: Position,
    /// How many lines the chain has written before.
    pub lines: u64,
    /// How it is worked at.
    pub pace: Pace,
    /// After how many lines it is to pause.
    pub pause: Option<u32>,
    ghost few_lines: { lines ≤ most_lines },
    ghost valid: { ∥ IsValid portion.request ∥₁ },
    ghost position: { ∥ IsPosition at ∥₁ },
    ghost begins: { number ≡ 1 → (at ≡ beginning) × (lines ≡ 0) },
}

impl Run {
    ghost use Rattle.dd_pages_and_checkpoints.specs.Runs.{start_of, IsLimit};
    ghost use Rattle.dd_check.specs.ChainStarts.{first_start};

    /// The first run of a chain.
    pub fn first(
        alloc: Global,
        portion: Portion,
        pace: Pace,
        pause: Option<u32>,
    ) -> Result<Run, Memory>
        requires { IsValid portion.request }
        ensures start { IfOk result (λ run. start_of run ≡ first_start portion) }
        ensures pace { IfOk result (λ run. run.pace ≡ pace) }
        ensures pause { IfOk result (λ run. run.pause ≡ pause) }
    {
        let beginning = Position::At(Job {
            size: 1,
            prefix: Prefix::from_slice(alloc, &[1, 1, 1])?,
        });
        Ok(Run {
            number: 1,
            portion,
            at: beginning,
            lines: 0,
            pace,
            pause,
        })
    }

    /// How far its lines may go.
    pub fn limit(&self) -> Limit
        ensures { IsLimit self.now.lines self.now.pause result }
    {
        match self.pause {
            Some(lines) if u64::from(lines) <= MOST_LINES - self.lines => Limit {
                last: self.lines + u64::from(lines),
                pauses: true,
            },
            _ => Limit {
                last: MOST_LINES,
                pauses: false,
            },
        }
    }
}
