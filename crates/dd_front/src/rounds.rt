ghost use Rattle.std.specs.Prelude.{◌≡◌, ℕ, length, take, IfOk, OnOk, OnErr};
ghost use Rattle.dd_front.specs.Rounds.{open_jobs};

use crate::entry::Entry;
use crate::front::Front;
use crate::joined_lists::join;
use crate::members::Members;
use dd_model::{Job, Memory};
use std::alloc::Global;

/// Returns copies of the jobs of the first open entries, at most `most`.
fn first_open(alloc: Global, entries: &[Entry], most: usize) -> Result<Vec<Job>, Memory>
    ensures { IfOk result (λ jobs. jobs.items ≡ take most (open_jobs entries.now)) }
{
    let mut jobs = Vec::new(alloc);
    for entry in entries {
        if jobs.len() >= most {
            break;
        }
        if entry.state.is_open() {
            jobs.push(entry.job.try_copy()?)?;
        }
    }
    Ok(jobs)
}

impl Front {
    ghost use Rattle.dd_front.specs.Absorbed.{MayAbsorb, Absorbs};
    ghost use Rattle.dd_front.specs.Joining.{done_first};

    /// Returns copies of the jobs of the first open entries, at most `most`.
    pub fn first(&self, most: u32) -> Result<Vec<Job>, Memory>
        ensures { IfOk result (λ jobs. jobs.items ≡ take most (open_jobs self.now.entries)) }
    {
        first_open(self.alloc, self.entries.as_slice(), most as usize)
    }

    /// Makes each job of a round done with what the round's entries for it have. After `Err` the
    /// front is as before.
    pub fn absorb(&mut self, entries: Vec<Entry>) -> Result<(), Memory>
        requires { (k : ℕ) × MayAbsorb self.old k entries.items }
        ensures absorbs { OnOk result ((k : ℕ) → MayAbsorb self.old k entries.items
            → Absorbs self.old k entries.items self.new) }
        ensures same { OnErr result (self.new ≡ self.old) }
    {
        if entries.is_empty() {
            return Ok(());
        }
        let lists = join(self.alloc, self.entries.as_slice(), entries)?;
        self.entries.put_lists(lists);
        Ok(())
    }

    /// Makes the first entries done with these lists, which have what is under their jobs. Nothing
    /// is copied or joined, as `absorb` has to do.
    pub fn finish_first(&mut self, lists: Vec<Members>)
        requires { MayAbsorb self.old (length lists.items)
            (done_first lists.items self.old.entries) }
        ensures { Absorbs self.old (length lists.items) (done_first lists.items self.old.entries)
            self.new }
    {
        self.entries.put_lists(lists);
    }
}
