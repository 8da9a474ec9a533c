ghost use Rattle.std.specs.Prelude.{◌≡◌, ◌↔◌, ℕ, ◌≤◌, IsTrue, IfOk, IfSome};
ghost use Rattle.std.specs.List.{Contains};
ghost use Rattle.dd_model.specs.Connected.{Connected as AllReached};
ghost use Rattle.dd_model.specs.FirstVisit.{IsFirstVisit};
ghost use Rattle.dd_model.specs.Small.{IsSmallSymbol};
ghost use Rattle.dd_model.specs.Symbol.{IsChamber};
ghost use Rattle.dd_symbol.specs.Images.{with_degrees};
ghost use Rattle.dd_canon.specs.Ties.{IsLeastFrom};
ghost use Rattle.dd_branch_degrees.specs.Automorphism.{AreAutomorphisms};

use crate::automorphisms::{Automorphism, automorphisms_to, none_is_smaller};
use dd_canon::is_least_from_ties;
use dd_model::Memory;
use dd_symbol::{Connected, Symbol};
use std::alloc::Global;

/// What is known of the chambers from which a table may be numbered as it stands.
#[derive(Drop)]
pub struct Ties {
    /// These chambers, without chamber 1.
    pub starts: Vec<u32>,
    /// The automorphisms that send chamber 1 to each of them, if there is one to each.
    pub automorphisms: Option<Vec<Automorphism>>,
}

impl Ties {
    /// Returns the ties of a table with these starts.
    pub fn of(alloc: Global, s: &Symbol, starts: Vec<u32>) -> Result<Ties, Memory>
        requires small { s.now.size ≤ 36 }
        requires starts { (d : ℕ) → Contains starts.items d → IsChamber s.now d }
        ensures starts { IfOk result (λ ties. ties.starts ≡ starts) }
        ensures automorphisms { IfOk result (λ ties. IfSome ties.automorphisms (λ all.
            AreAutomorphisms s.now starts.items all.items)) }
    {
        let automorphisms = automorphisms_to(alloc, s, starts.as_slice())?;
        Ok(Ties {
            starts,
            automorphisms,
        })
    }

    /// Returns whether no numbering of a table with some degrees from a start is smaller. If the
    /// automorphisms are known, only the degrees decide, and no symbol is made.
    pub fn are_least(
        &self,
        alloc: Global,
        table: &Connected,
        m01: &[u8],
        m12: &[u8],
    ) -> Result<bool, Memory>
        requires small { IsSmallSymbol (with_degrees table.now m01.now m12.now) }
        requires starts { (d : ℕ) → Contains self.now.starts.items d → IsChamber table.now d }
        requires automorphisms { IfSome self.now.automorphisms (λ all.
            AreAutomorphisms table.now self.now.starts.items all.items) }
        requires connected { AllReached table.now }
        requires visit { IsFirstVisit table.now }
        ensures { IfOk result (λ yes. IsTrue yes
            ↔ IsLeastFrom (with_degrees table.now m01.now m12.now) self.now.starts.items) }
    {
        match &self.automorphisms {
            Some(all) => Ok(none_is_smaller(all.as_slice(), m01, m12)),
            None => {
                let symbol = table.with_known_degrees(alloc, m01, m12)?;
                is_least_from_ties(alloc, &symbol, self.starts.as_slice())
            }
        }
    }
}
