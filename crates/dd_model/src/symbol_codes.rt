ghost use Rattle.std.specs.Prelude.{◌≡◌, ℕ, List};

use std::marker::Model;

/// The code of a symbol: five numbers for each chamber, first the images and then the degrees.
#[derive(Drop)]
pub struct Code {
    numbers: Vec<u32>,
}

impl Model for Code {
    ghost Value = { List ℕ };

    ghost view = { λ a. a.numbers.items };
}

impl Code {
    /// A code of these numbers.
    pub fn from_vec(numbers: Vec<u32>) -> Code
        ensures { result ≡ numbers.items }
    {
        Code { numbers }
    }

    /// The numbers in order.
    pub fn as_slice(&self) -> &[u32]
        ensures { result.now ≡ self.now }
    {
        self.numbers.as_slice()
    }
}
