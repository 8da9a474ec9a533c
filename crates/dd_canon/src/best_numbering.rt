ghost use Rattle.std.specs.Prelude.{◌≡◌, ◌+◌, ◌-◌, ◌*◌, ◌≤◌, IfOk, OnOk};
ghost use Rattle.std.specs.Bool.{OnTrue, OnFalse};
ghost use Rattle.std.specs.declared.cmp.Ordering.TheVariants.{Less};
ghost use Rattle.dd_model.specs.Symbol.{IsChamber};
ghost use Rattle.dd_model.specs.Code.{code_cmp};
ghost use Rattle.dd_model.specs.Isomorphic.{IsIsomorphism};
ghost use Rattle.dd_canon.specs.Best.{IsBestNumbering};

use crate::steps::Comparer;
use crate::visits::NumberedChambers;
use dd_model::Memory;
use dd_symbol::Connected;
use dd_union_find::Forest;
use std::alloc::Global;
use std::mem::swap;

/// The best of the numberings by first visits from the starts 1 to some start.
///
/// Two starts have one code if an automorphism takes one to the other. A traversal that ties with
/// the best one to its end is an automorphism: it takes the k-th chamber of the best numbering to
/// its own k-th chamber. So the chambers are joined along it, and a start that is joined with a
/// smaller one is left out. Each tie at least doubles the group of the automorphisms that were
/// found, which has at most as many members as there are chambers.
#[derive(Drop)]
pub(crate) struct BestNumbering {
    /// The numbers of the first visits from the best start.
    pub home: NumberedChambers,
    /// The symbol in these numbers.
    pub form: Connected,
    /// The first visits from another start.
    there: NumberedChambers,
    /// The chambers, joined along automorphisms. Node 0 is no chamber.
    orbits: Forest,
}

impl BestNumbering {
    ghost use Rattle.dd_canon.specs.Best.{IsBestNumbering};

    /// Numbers the chambers of a symbol from chamber 1.
    pub(crate) fn new(alloc: Global, s: &Connected) -> Result<BestNumbering, Memory>
        ensures { IfOk result (λ best. IsBestNumbering s.now 1 best) }
    {
        let mut home = NumberedChambers::new(alloc, s)?;
        let there = NumberedChambers::new(alloc, s)?;
        home.number_from(s, 1);
        let form = s.renumber(alloc, &home.number)?;
        let orbits = Forest::new(alloc, s.symbol().size() + 1)?;
        Ok(BestNumbering {
            home,
            form,
            there,
            orbits,
        })
    }

    /// Compares the numbering from the next start with the best one, and keeps the better. Returns
    /// whether the new one is better.
    pub(crate) fn improve<T: Comparer>(
        &mut self,
        alloc: Global,
        s: &Connected,
        start: u32,
        steps: &mut T,
    ) -> Result<bool, Memory>
        requires start { IsChamber s.now start }
        requires best { IsBestNumbering s.now (start - 1) self.old }
        ensures best { OnOk result (IsBestNumbering s.now start self.new) }
        ensures better { IfOk result (λ better.
            OnTrue better (code_cmp self.new.form self.old.form ≡ Less)) }
        ensures same { IfOk result (λ better. OnFalse better (self.new.form ≡ self.old.form)) }
        ensures count { T.count steps.new ≤ T.count steps.old + 5 * s.now.size }
    {
        if !self.orbits.is_smallest(start) {
            return Ok(false);
        }
        let order = self.there.stand(s, start, &self.form, steps);
        if order.is_gt() {
            return Ok(false);
        }
        let better = order.is_lt();
        if better {
            self.form = s.renumber(alloc, &self.there.number)?;
            swap(&mut self.home, &mut self.there);
            return Ok(true);
        }
        self.orbits.join_along(&self.home.order, &self.there.order);
        Ok(false)
    }

    /// Joins the chambers along an automorphism.
    pub(crate) fn join_by(&mut self, s: &Connected, automorphism: &[u32])
        requires best { IsBestNumbering s.now 1 self.old }
        requires automorphism { IsIsomorphism s.now s.now automorphism.now }
        ensures { IsBestNumbering s.now 1 self.new }
    {
        for k in 0..s.symbol().size() {
            self.orbits.join(k + 1, automorphism[k as usize]);
        }
    }

    /// Compares the numberings from all other starts than chamber 1, and keeps the best.
    pub(crate) fn improve_to_end<T: Comparer>(
        &mut self,
        alloc: Global,
        s: &Connected,
        steps: &mut T,
    ) -> Result<(), Memory>
        requires { IsBestNumbering s.now 1 self.old }
        ensures best { OnOk result (IsBestNumbering s.now s.now.size self.new) }
        ensures count { T.count steps.new ≤ T.count steps.old + 5 * s.now.size * s.now.size }
    {
        for k in 1..s.symbol().size() {
            self.improve(alloc, s, k + 1, steps)?;
        }
        Ok(())
    }
}

/// Returns the best of all numberings by first visits, in at most 5 n n comparisons of code numbers
/// for n chambers.
pub(crate) fn best_numbering<T: Comparer>(
    alloc: Global,
    s: &Connected,
    steps: &mut T,
) -> Result<BestNumbering, Memory>
    ensures best { IfOk result (λ best. IsBestNumbering s.now s.now.size best) }
    ensures count { T.count steps.new ≤ T.count steps.old + 5 * s.now.size * s.now.size }
{
    let mut best = BestNumbering::new(alloc, s)?;
    best.improve_to_end(alloc, s, steps)?;
    Ok(best)
}
