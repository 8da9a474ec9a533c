ghost use Rattle.std.specs.Prelude.{◌≡◌};
ghost use Rattle.dd_model.specs.Request.{IsValid};
ghost use Rattle.dd_model.specs.Jobs.{IsJobOf};

use crate::naming::Naming;
use dd_model::Job;
use std::marker::PhantomData;

/// The right to do the job of an entry that is out. There is one for each time that the entry was
/// taken.
#[derive(Drop)]
pub struct Ticket<N: Naming> {
    entry: u64,
    job: Job,
    of: PhantomData<N>,
    ghost valid: { ∥ IsValid N.request ∥₁ },
    ghost job_of: { IsJobOf N.request job },
}

impl<N: Naming> Ticket<N> {
    /// Makes a ticket for the job of an entry. A desk makes one each time it gives the entry out.
    pub fn new(entry: u64, job: Job) -> Ticket<N>
        requires valid { IsValid N.request }
        requires job_of { IsJobOf N.request job }
        ensures entry { result.entry ≡ entry }
        ensures job { result.job ≡ job }
    {
        Ticket {
            entry,
            job,
            of: PhantomData,
        }
    }

    /// The number of the entry.
    pub fn entry(&self) -> u64
        ensures { result ≡ self.now.entry }
    {
        self.entry
    }

    /// The job of the entry.
    pub fn job(&self) -> &Job
        ensures same { result.now ≡ self.now.job }
        ensures valid { IsValid N.request }
        ensures job_of { IsJobOf N.request self.now.job }
    {
        &self.job
    }
}

/// What a worker is given that asks for a job.
#[derive(Drop)]
pub enum Taken<N: Naming> {
    /// The first job that was open.
    Job(Ticket<N>),
    /// No job was open.
    Idle,
}
