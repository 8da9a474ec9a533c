ghost use Rattle.std.specs.Prelude.{◌≡◌, ◌≤◌, ◌↔◌, ℕ, IsTrue, MatchOption};
ghost use Rattle.std.specs.Int.{bit_at};

/// A set of chambers of a table, which are numbers up to 36. It is one word.
#[derive(Clone, Copy, Drop)]
pub struct ChamberSet {
    /// Bit number `d` is set if chamber `d` is in the set.
    bits: u64,
    ghost chambers: { (d : ℕ) → bit_at bits d ≡ 1 → d ≤ 36 },
}

impl ChamberSet {
    ghost use Rattle.dd_branch_tables.specs.Chambers.{bit_of, AreThoseTo, HasMore, HasNone, HasOnly, IsFirst};

    /// The empty set.
    pub fn none() -> ChamberSet
        ensures { HasNone result }
    {
        ChamberSet { bits: 0 }
    }

    /// The set of one chamber.
    pub(crate) fn only(chamber: u8) -> ChamberSet
        requires { chamber ≤ 36 }
        ensures { HasOnly result chamber }
    {
        ChamberSet { bits: 1 << chamber }
    }

    /// The chambers from 1 to `last` whose bits are set in a word.
    pub(crate) fn of_bits(bits: u64, last: u8) -> ChamberSet
        requires { last ≤ 36 }
        ensures { AreThoseTo bits last result }
    {
        ChamberSet {
            bits: bits & ((2 << last) - 2),
        }
    }

    /// Returns whether a chamber is in the set.
    pub fn contains(self, chamber: u8) -> bool
        requires { chamber ≤ 36 }
        ensures { IsTrue result ↔ (bit_of self chamber ≡ 1) }
    {
        (self.bits >> chamber) & 1 == 1
    }

    /// Adds a chamber.
    pub fn insert(&mut self, chamber: u8)
        requires { chamber ≤ 36 }
        ensures { HasMore self.old chamber self.new }
    {
        self.bits |= 1 << chamber;
    }

    /// Takes the least chamber out. Returns None if the set is empty.
    pub fn take_first(&mut self) -> Option<u8>
        ensures { MatchOption result (HasNone self.old)
            (λ chamber. IsFirst self.old chamber self.new) }
    {
        if self.bits == 0 {
            return None;
        }
        let chamber = self.bits.trailing_zeros() as u8;
        self.bits &= self.bits - 1;
        Some(chamber)
    }
}

impl Default for ChamberSet {
    fn default() -> ChamberSet {
        ChamberSet::none()
    }
}
