ghost use Rattle.std.specs.Prelude.{◌≡◌, ◌==◌, ◌+◌, ◌-◌, ◌^◌, min, true, false};
ghost use Rattle.std.specs.List.{list_any};

/// Which calls fail, by their numbers from 1.
#[derive(Drop)]
pub(crate) struct Schedule {
    fails: Vec<u64>,
    next: u64,
}

impl Schedule {
    ghost use Rattle.dd_ports.specs.Schedule.{is_due, is_over, fails_of, next_of};

    /// The schedule of calls counted from 1.
    pub fn new(fails: Vec<u64>) -> Schedule
        ensures fails { fails_of result ≡ fails.items }
        ensures first { next_of result ≡ 1 }
    {
        Schedule { fails, next: 1 }
    }

    /// Counts a call, and says whether it fails.
    pub fn turn(&mut self) -> bool
        ensures due { result ≡ is_due self.old }
        ensures next { next_of self.new ≡ min (next_of self.old + 1) (2 ^ 64 - 1) }
        ensures over { is_over self.old ≡ true → (result ≡ false) × (is_over self.new ≡ true) }
        ensures same { fails_of self.new ≡ fails_of self.old }
    {
        let number = self.next;
        self.next = number.saturating_add(1);
        is_listed(&self.fails, number)
    }
}

fn is_listed(fails: &[u64], number: u64) -> bool
    ensures { result ≡ list_any (λ f. f == number) fails.now }
{
    fails.iter().any(|f| *f == number)
}
