ghost use Rattle.std.specs.Prelude.{◌≡◌, IfOk, OnOk, OnErr};
ghost use Rattle.dd_model.specs.Lists.{IsWithout};
ghost use Rattle.dd_model.specs.Position.{IsWhollyBefore};

use crate::entry_list::EntryList;
use crate::front::Front;
use dd_model::{Job, Memory};

impl Front {
    ghost use Rattle.dd_front.specs.Step.{Saves, Resumes};

    /// Keeps the lines and the position.
    pub(crate) fn save(&mut self) -> Result<(), Memory>
        ensures saves { OnOk result (Saves self.old self.new) }
        ensures same { OnErr result (self.new ≡ self.old) }
    {
        self.saved_position = self.position()?;
        self.saved_lines = self.lines;
        Ok(())
    }

    /// Returns copies of the opening's jobs that are not wholly before the saved position.
    fn saved_jobs(&self) -> Result<Vec<Job>, Memory>
        ensures { IfOk result (λ jobs. IsWithout (IsWhollyBefore self.now.saved.position)
            self.now.opening jobs.items) }
    {
        let mut jobs = self.opening.jobs(self.alloc)?;
        jobs.retain(|job| !job.is_wholly_before(&self.saved_position));
        Ok(jobs)
    }

    /// Goes back to what was kept.
    pub(crate) fn resume(&mut self) -> Result<(), Memory>
        ensures resumes { OnOk result (Resumes self.old self.new) }
        ensures same { OnErr result (self.new ≡ self.old) }
    {
        let from = self.saved_position.try_copy()?;
        let jobs = self.saved_jobs()?;
        let next = jobs.len() as u64 + 1;
        self.entries = EntryList::of_jobs(self.alloc, jobs)?;
        self.from = from;
        self.next = next;
        self.lines = self.saved_lines;
        Ok(())
    }
}
