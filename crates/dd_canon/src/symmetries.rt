ghost use Rattle.std.specs.Prelude.{◌≡◌, ℕ, ◌<◌, List, IfOk, MatchOption};
ghost use Rattle.dd_model.specs.Symbol.{IsChamber};

use crate::isomorphisms::joined;
use crate::steps::Uncounted;
use crate::visits::NumberedChambers;
use dd_model::{Map, Memory};
use dd_symbol::Connected;
use std::alloc::Global;

/// Finds the isomorphisms of a symbol onto itself, each by the image of chamber 1.
///
/// The lists are taken once, and serve for one image after another.
#[derive(Drop)]
pub struct Symmetries {
    /// The numbers of the first visits from chamber 1.
    home: NumberedChambers,
    /// The symbol in these numbers.
    form: Connected,
    /// The first visits from another chamber.
    there: NumberedChambers,
}

impl Symmetries {
    ghost use Rattle.dd_canon.specs.Symmetries.{AreSymmetriesOf, Carries};

    /// Numbers the chambers of a symbol from chamber 1.
    pub fn new(alloc: Global, s: &Connected) -> Result<Symmetries, Memory>
        ensures { IfOk result (λ all. AreSymmetriesOf s.now all) }
    {
        let mut home = NumberedChambers::new(alloc, s)?;
        let there = NumberedChambers::new(alloc, s)?;
        home.number_from(s, 1);
        let form = s.renumber(alloc, &home.number)?;
        Ok(Symmetries { home, form, there })
    }

    /// Returns the isomorphism of the symbol onto itself that takes chamber 1 to `to`, or None if
    /// there is none. It takes at most five comparisons a chamber.
    pub fn carry(&mut self, alloc: Global, s: &Connected, to: u32) -> Result<Option<Map>, Memory>
        requires of { AreSymmetriesOf s.now self.old }
        requires to { IsChamber s.now to }
        ensures of { AreSymmetriesOf s.now self.new }
        ensures map { IfOk result (λ found. MatchOption found
            ((f : List ℕ) → ¬ Carries s.now to f) (λ map. Carries s.now to map)) }
    {
        let order = self.there.stand(s, to, &self.form, &mut Uncounted);
        if order.is_ne() {
            return Ok(None);
        }
        Ok(Some(joined(alloc, &self.home.number, &self.there.order)?))
    }
}
