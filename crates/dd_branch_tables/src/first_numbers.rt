ghost use Rattle.std.specs.Prelude.{◌≡◌, ◌↔◌, ◌<◌, ◌≤◌, [], ◌∷◌, ◌++◌, IsTrue, length, take};
ghost use Rattle.dd_model.specs.FirstVisit.{Grows};
ghost use Rattle.dd_front_jobs.specs.FirstVisit.{greatest};

use std::marker::Model;

/// The first numbers of a code. A number is put at the end and taken away again in place, and the
/// greatest of them is known without a look at all.
#[derive(Drop)]
pub(crate) struct FirstNumbers {
    numbers: [u8; 108],
    mosts: [u8; 109],
    count: u8,
}

impl Model for FirstNumbers {
    ghost use Rattle.std.specs.Prelude.{ℕ, List, take};
    ghost use Rattle.dd_branch_tables.specs.Mosts.{AreMosts};

    ghost Value = { List ℕ };

    ghost view = { λ a. take a.count a.numbers };

    ghost invariant = { λ a. AreMosts a.count a.numbers a.mosts };
}

impl FirstNumbers {
    /// No numbers.
    pub(crate) fn new() -> FirstNumbers
        ensures { result ≡ [] }
    {
        FirstNumbers {
            numbers: [0; 108],
            mosts: [1; 109],
            count: 0,
        }
    }

    /// How many there are.
    pub(crate) fn len(&self) -> usize
        ensures { result ≡ length self.now }
    {
        self.count as usize
    }

    /// The numbers, in order.
    pub(crate) fn as_slice(&self) -> &[u8]
        ensures { result.now ≡ self.now }
    {
        &self.numbers[..self.count as usize]
    }

    /// The greatest of 1 and the numbers.
    pub(crate) fn greatest(&self) -> u8
        ensures { result ≡ greatest self.now }
    {
        self.mosts[self.count as usize]
    }

    /// The greatest of 1 and the first `count` numbers.
    pub(crate) fn greatest_of(&self, count: usize) -> u8
        requires { count ≤ length self.now }
        ensures { result ≡ greatest (take count self.now) }
    {
        self.mosts[count]
    }

    /// Returns whether each number is at most one more than the greatest of 1 and the numbers
    /// before it. The loop has no way out but its end, so that many numbers are compared at once.
    pub(crate) fn grows(&self) -> bool
        ensures { IsTrue result ↔ Grows 1 self.now }
    {
        let mut grows = true;
        for place in 0..self.count as usize {
            if self.numbers[place].saturating_sub(1) > self.mosts[place] {
                grows = false;
            }
        }
        grows
    }

    /// Puts a number at the end.
    pub(crate) fn push(&mut self, number: u8)
        requires { length self.old < 108 }
        ensures { self.new ≡ self.old ++ number ∷ [] }
    {
        let most = self.greatest().max(number);
        let place = self.count as usize;
        self.numbers[place] = number;
        self.mosts[place + 1] = most;
        self.count += 1;
    }

    /// Keeps the first `count` numbers.
    pub(crate) fn truncate(&mut self, count: usize)
        ensures { self.new ≡ take count self.old }
    {
        if count < self.count as usize {
            self.count = count as u8;
        }
    }
}
