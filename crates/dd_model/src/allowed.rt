ghost use Rattle.std.specs.Prelude.{◌≡◌, ◌⊎◌, ◌↔◌, ℕ, ◌≤◌, IsTrue, IsFalse, length, slice_index_or, false};

/// A set of numbers from 1 to 216.
#[derive(Clone, Copy)]
pub struct Allowed {
    table: [bool; 217],
    ghost whole: { length table ≡ 217 },
    ghost no_zero: { slice_index_or table 0 false ≡ false },
}

impl Allowed {
    ghost use Rattle.dd_model.specs.Allowed.{IsIn, IsFrom};

    /// The empty set.
    pub fn none() -> Allowed
        ensures { (m : ℕ) → ¬ IsIn result m }
    {
        Allowed {
            table: [false; 217],
        }
    }

    /// The numbers f to 216.
    pub fn least(f: u32) -> Allowed
        requires { (1 ≤ f) × (f ≤ 36) }
        ensures { IsFrom f result }
    {
        let mut table = [false; 217];
        for m in f as usize..217 {
            table[m] = true;
        }
        Allowed { table }
    }

    /// The number m joins the set.
    pub fn add(&mut self, m: u32)
        requires { (1 ≤ m) × (m ≤ 216) }
        ensures { (k : ℕ) → IsIn self.new k ↔ ((k ≡ m) ⊎ IsIn self.old k) }
    {
        self.table[m as usize] = true;
    }

    /// Returns whether m is in the set.
    pub fn has(&self, m: u32) -> bool
        ensures { IsTrue result ↔ IsIn self.now m }
    {
        m <= 216 && self.table[m as usize]
    }

    /// Returns whether the set has a number.
    pub fn is_some(&self) -> bool
        ensures { IsTrue result ↔ ((m : ℕ) × IsIn self.now m) }
    {
        for m in 0..217 {
            if self.table[m] {
                return true;
            }
        }
        false
    }
}
