use crate::plain_front::{Action, PlainFront};

/// Numbers from a linear congruence.
#[derive(Drop)]
pub(crate) struct RandomNumbers {
    state: u64,
}

impl RandomNumbers {
    pub(crate) fn from_seed(seed: u64) -> RandomNumbers {
        RandomNumbers { state: seed }
    }

    /// The next number, below a bound.
    fn below(&mut self, bound: u64) -> u64 {
        self.state = self
            .state
            .wrapping_mul(6364136223846793005)
            .wrapping_add(1442695040888963407);
        (self.state >> 33) % bound.max(1)
    }

    /// The number of an entry: often that of the first one, and seldom 0 or one that has left.
    fn entry(&mut self, plain: &PlainFront) -> u64 {
        let count = plain.rows.len() as u64;
        let place = if self.below(2) == 0 {
            0
        } else {
            self.below(count.saturating_add(1))
        };
        match plain.rows.as_slice().get(place as usize) {
            Some(row) => row.number,
            None => self.below(plain.next_number),
        }
    }

    /// The next event.
    pub(crate) fn action(&mut self, plain: &PlainFront) -> Action {
        let entry = self.entry(plain);
        match self.below(18) {
            0..=4 => Action::Take(entry),
            5 => Action::Look,
            6 | 7 => Action::Split(entry),
            8..=10 => Action::Finish(entry),
            11 => Action::Back(entry),
            12 | 13 => Action::Emit,
            14 | 15 => Action::Part(self.below(4)),
            16 => Action::Save,
            _ => Action::Resume,
        }
    }
}
