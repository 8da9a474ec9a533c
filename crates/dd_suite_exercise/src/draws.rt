ghost use Rattle.std.specs.Prelude.{◌≡◌, ◌<◌};

use std::marker::Model;

/// Makes a number of each number, and answers draws by them.
#[derive(Drop)]
pub(crate) struct Generator {
    number: u64,
}

impl Model for Generator {
    ghost use Rattle.std.specs.Prelude.{ℕ, ◌<◌};

    ghost Value = { ℕ };

    ghost view = { λ a. a.number };

    ghost invariant = { λ a. a.number < 2147483648 };
}

impl Generator {
    ghost use Rattle.dd_suite_exercise.specs.Draws.{next, answer};

    /// Begins at a number.
    pub fn start(number: u32) -> Generator
        requires { number < 2147483648 }
        ensures { result ≡ number }
    {
        Generator {
            number: number as u64,
        }
    }

    /// The answer of a draw below a number.
    pub fn below(&mut self, limit: usize) -> usize
        requires { 0 < limit }
        ensures answer { result ≡ answer self.old limit }
        ensures below { result < limit }
        ensures next { self.new ≡ next self.old }
    {
        self.number = (self.number * 1_103_515_245 + 12_345) % 2_147_483_648;
        (self.number / 65_536) as usize % limit
    }
}
