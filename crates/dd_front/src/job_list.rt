ghost use Rattle.std.specs.Prelude.{◌≡◌, List};
ghost use Rattle.dd_model.specs.declared.jobs.Job.{Job as Part};

use dd_model::Job;
use std::marker::Model;

/// Jobs in order.
#[derive(Drop)]
pub struct JobList {
    jobs: Vec<Job>,
}

impl Model for JobList {
    ghost Value = { List Part };

    ghost view = { λ a. a.jobs.items };
}

impl JobList {
    /// The jobs in this order.
    pub fn from_vec(jobs: Vec<Job>) -> JobList
        ensures { result ≡ jobs.items }
    {
        JobList { jobs }
    }

    /// The jobs in order.
    pub fn as_slice(&self) -> &[Job]
        ensures { result.now ≡ self.now }
    {
        self.jobs.as_slice()
    }

    /// The jobs in order, moved and not copied.
    pub fn into_vec(self) -> Vec<Job>
        ensures { result.items ≡ self }
    {
        self.jobs
    }
}
