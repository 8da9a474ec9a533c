ghost use Rattle.std.specs.Prelude.{◌≡◌, ◌⊎◌, ◌+◌, ◌<◌, ◌^◌, List, OnOk, OnErr};
ghost use Rattle.dd_model.specs.Symbol.{Symbol};

use crate::entry::State;
use crate::event::Event;
use crate::front::Front;
use crate::job_list::JobList;
use dd_model::Memory;

impl Front {
    ghost use Rattle.dd_front.specs.Allowed.{IsAllowed, MaySplit};
    ghost use Rattle.dd_front.specs.Invariant.{IsListed};
    ghost use Rattle.dd_front.specs.Room.{HasRoom};
    ghost use Rattle.dd_front.specs.Step.{IsStep, with_state, split_entries, taken_numbers};

    /// Does an event that is allowed. It fails only if an allocation fails, and the front is then
    /// as before.
    pub fn step(&mut self, event: Event) -> Result<(), Memory>
        requires allowed { IsAllowed self.old event }
        requires room { HasRoom self.old event }
        ensures step { OnOk result
            ((emitted : List Symbol) × IsStep self.old event self.new emitted) }
        ensures same { OnErr result (self.new ≡ self.old) }
    {
        match event {
            Event::Take { entry, .. } => self.set_state(entry, State::Out),
            Event::Look { .. } => {}
            Event::Split { entry, jobs, .. } => return self.split(entry, jobs),
            Event::Finish { entry, list, .. } => self.set_state(entry, State::Done(list)),
            Event::Back { entry, .. } => self.set_state(entry, State::Open),
            Event::Emit => {
                let _ = self.emit();
            }
            Event::Part { count } => {
                let _ = self.part(count)?;
            }
            Event::Save => return self.save(),
            Event::Resume => return self.resume(),
        }
        Ok(())
    }

    /// Gives the entry of a number another state. The number 0 changes nothing.
    fn set_state(&mut self, number: u64, state: State)
        requires { (number ≡ 0) ⊎ IsListed self.old.request state }
        ensures { self.new
            ≡ record self.old { entries = with_state number state self.old.entries } }
    {
        self.entries.set_state(number, state);
    }

    /// Puts open entries for jobs in the place of the one of a number. The number 0 changes
    /// nothing.
    fn split(&mut self, number: u64, jobs: JobList) -> Result<(), Memory>
        requires children { (number ≡ 0) ⊎ MaySplit self.old number jobs }
        requires room { self.old.next + taken_numbers number jobs < 2 ^ 64 }
        ensures entries { OnOk result (self.new ≡ record self.old {
          entries = split_entries number self.old.next jobs self.old.entries;
          next = self.old.next + taken_numbers number jobs;
        }) }
        ensures same { OnErr result (self.new ≡ self.old) }
    {
        if number == 0 {
            return Ok(());
        }
        let jobs = jobs.into_vec();
        let next = self.next + jobs.len() as u64;
        self.entries.split(self.alloc, number, self.next, jobs)?;
        self.next = next;
        Ok(())
    }
}
