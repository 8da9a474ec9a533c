ghost use Rattle.std.specs.Prelude.{◌≡◌, ◌≤◌, max, MatchOption};

/// How a catalogue is worked at: by how many workers, 1 to 64, and with how many jobs in a round,
/// at least 1.
#[derive(Clone, Copy)]
pub struct Pace {
    workers: u32,
    round: u32,
    ghost some_workers: { 1 ≤ workers },
    ghost few_workers: { workers ≤ 64 },
    ghost some_jobs: { 1 ≤ round },
}

impl Pace {
    ghost use Rattle.dd_front_jobs.specs.Paces.{ArePaceNumbers, IsPace};

    /// Returns the pace of `workers` workers and `round` jobs in a round, and None if there is
    /// none.
    pub fn new(workers: u32, round: u32) -> Option<Pace>
        ensures { MatchOption result (¬ ArePaceNumbers workers round)
            (λ pace. IsPace pace workers round) }
    {
        if workers < 1 || workers > 64 || round < 1 {
            return None;
        }
        Some(Pace { workers, round })
    }

    /// Returns the number of workers.
    pub fn workers(self) -> u32
        ensures workers { result ≡ self.workers }
        ensures some { 1 ≤ result }
        ensures few { result ≤ 64 }
    {
        self.workers
    }

    /// Returns the number of jobs in a round.
    pub fn round(self) -> u32
        ensures round { result ≡ self.round }
        ensures some { 1 ≤ result }
    {
        self.round
    }

    /// Returns the pace with `round` jobs in a round, or with 1 if `round` is 0.
    pub fn with_round(self, round: u32) -> Pace
        ensures { IsPace result self.workers (max 1 round) }
    {
        Pace {
            workers: self.workers,
            round: round.max(1),
        }
    }
}
