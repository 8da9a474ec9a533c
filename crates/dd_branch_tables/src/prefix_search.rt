ghost use Rattle.std.specs.Prelude.{◌≡◌, ℕ, ◌+◌, [], ◌∷◌, ◌++◌, ◌*◌, ◌≤◌, ◌<◌, ◌↔◌, List, IsTrue, length};
ghost use Rattle.std.specs.Bool.{OnTrue, OnFalse};
ghost use Rattle.dd_model.specs.Symbol.{Symbol as Tiling};
ghost use Rattle.dd_model.specs.declared.requests.Request.{Request as Asked};
ghost use Rattle.dd_front_jobs.specs.Under.{HasNothingUnder};
ghost use Rattle.dd_branch_tables.specs.Chambers.{bit_of};
ghost use Rattle.dd_branch_tables.specs.Search.{SearchLaws, GoesOn};

use crate::chamber_set::ChamberSet;

/// A prefix of codes of one size, with what a search keeps to see early that nothing is under the
/// prefix. A number is put at its end and taken away again, in place.
pub trait PrefixSearch {
    ghost laws: { SearchLaws Self };

    /// Returns whether the prefix is whole.
    fn is_whole(&self) -> bool
        ensures whole { IsTrue result
            ↔ (length (laws.prefix self.now) ≡ laws.end (laws.size self.now)) }
        ensures few { laws.end (laws.size self.now) ≤ 108 };

    /// How much has been put in.
    fn mark(&self) -> usize
        ensures { result ≡ laws.depth self.now };

    /// The numbers that may come next. Nothing is under the prefix with any other number.
    fn candidates(&self) -> ChamberSet
        requires valid { laws.valid self.now }
        requires room { length (laws.prefix self.now) < laws.end (laws.size self.now) }
        ensures { (m : ℕ) → bit_of result m ≡ 0
            → HasNothingUnder (laws.wanted (laws.request self.now)) (laws.size self.now)
            (laws.prefix self.now ++ m ∷ []) };

    /// Puts a number at the end, and others that follow from it, unless it is sure that nothing is
    /// under the longer prefix.
    fn enter(&mut self, number: u8) -> bool
        requires valid { laws.valid self.old }
        requires room { length (laws.prefix self.old) < laws.end (laws.size self.old) }
        requires small { number ≤ 216 }
        ensures valid { laws.valid self.new }
        ensures alive { OnTrue result (GoesOn laws number self.old self.new) }
        ensures undone { OnTrue result (laws.undone self.new (laws.depth self.old) ≡ self.old) }
        ensures same { OnFalse result (self.new ≡ self.old) }
        ensures dead { OnFalse result
            (HasNothingUnder (laws.wanted (laws.request self.old)) (laws.size self.old)
            (laws.prefix self.old ++ number ∷ [])) };

    /// Takes away what was put in after a mark.
    fn leave(&mut self, mark: usize)
        requires { laws.valid (laws.undone self.old mark) }
        ensures { self.new ≡ laws.undone self.old mark };

    // a whole prefix has at most five numbers for each chamber
    ghost end_small: { (n : ℕ) → laws.end n ≤ 5 * n };
}
