ghost use Rattle.std.specs.Prelude.{◌≡◌, ◌∷◌, [], ◌++◌, IfOk, OnOk};

use dd_model::{Job, Memory, Prefix};
use std::alloc::Global;
use std::marker::Model;

/// A job without the numbers of its prefix.
#[derive(Drop)]
pub(crate) struct PackedJob {
    pub size: u32,
    /// The number of numbers in the prefix.
    pub count: usize,
}

/// The jobs of an opening in order, which are read only if a front goes back to what was saved.
/// There are thousands of them, so they are kept in little memory: the numbers of all prefixes
/// are in one vector.
#[derive(Drop)]
pub(crate) struct Opening {
    packed: Vec<PackedJob>,
    numbers: Vec<u8>,
}

impl Model for Opening {
    ghost use Rattle.std.specs.Prelude.{◌≡◌, List, length};
    ghost use Rattle.dd_model.specs.declared.jobs.Job.{Job as Part};
    ghost use Rattle.dd_front.specs.Opening.{unpacked, together};

    ghost Value = { List Part };

    ghost view = { λ a. unpacked a.packed.items a.numbers.items };

    ghost invariant = { λ a. together a.packed.items ≡ length a.numbers.items };
}

impl Opening {
    /// Returns the jobs in this order. It fails only if an allocation fails.
    pub fn of(alloc: Global, jobs: &[Job]) -> Result<Opening, Memory>
        ensures { IfOk result (λ opening. opening ≡ jobs.now) }
    {
        let mut opening = Opening {
            packed: Vec::with_capacity(alloc, jobs.len())?,
            numbers: Vec::new(alloc),
        };
        for job in jobs {
            opening.push(job)?;
        }
        Ok(opening)
    }

    /// Appends a job. It fails only if an allocation fails.
    fn push(&mut self, job: &Job) -> Result<(), Memory>
        ensures { OnOk result (self.new ≡ self.old ++ job.now ∷ []) }
    {
        let numbers = job.prefix.as_slice();
        self.packed.reserve(1)?;
        self.numbers.extend_from_slice(numbers)?;
        self.packed.push_reserved(PackedJob {
            size: job.size,
            count: numbers.len(),
        });
        Ok(())
    }

    /// Returns copies of the jobs. It fails only if an allocation fails.
    pub fn jobs(&self, alloc: Global) -> Result<Vec<Job>, Memory>
        ensures { IfOk result (λ jobs. jobs.items ≡ self.now) }
    {
        let mut jobs = Vec::with_capacity(alloc, self.packed.len())?;
        let mut left = self.numbers.as_slice();
        for packed in &self.packed {
            let (own, later) = left.split_at(packed.count);
            jobs.push(Job {
                size: packed.size,
                prefix: Prefix::from_slice(alloc, own)?,
            })?;
            left = later;
        }
        Ok(jobs)
    }
}
