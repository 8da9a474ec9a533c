ghost use Rattle.std.specs.Prelude.{◌≡◌, ◌≢◌, ℕ, suc, ◌+◌, ◌-◌, ◌*◌, ◌≤◌, List, [], ◌∷◌, ◌++◌, set, length, IfOk};
ghost use Rattle.std.specs.Ordering.{nat_cmp};
ghost use Rattle.std.specs.Cmp.Lexicographic.{slice_cmp};
ghost use Rattle.std.specs.declared.cmp.Ordering.TheVariants.{Equal, Greater};
ghost use Rattle.dd_model.specs.Symbol.{IsChamber, item, Symbol as Tiling};
ghost use Rattle.dd_model.specs.FirstVisit.{rows};
ghost use Rattle.dd_canon.specs.Traversal.{IsVisit, IsMeeting, IsExtension, IsTraversal};

use crate::steps::Comparer;
use dd_model::{Memory, Pair};
use dd_symbol::{Connected, SymbolRef, item};
use std::alloc::Global;
use std::cmp::Ordering;

/// Chambers in the order of their numbers, and the number of each chamber, 0 where it has none.
/// The two lists are taken once, and serve for one start after another.
#[derive(Drop)]
pub(crate) struct NumberedChambers {
    pub order: Vec<u32>,
    pub number: Vec<u32>,
}

impl NumberedChambers {
    ghost use Rattle.dd_canon.specs.Standing.{IsReady, IsMetAndCompared, IsStanding, IsOngoing, IsWhole, degree_list};

    /// Room for the chambers of a symbol, of which none has a number.
    pub(crate) fn new(alloc: Global, s: &Connected) -> Result<NumberedChambers, Memory>
        ensures { IfOk result (λ visit. IsReady s.now visit) }
    {
        let size = s.symbol().size() as usize;
        let number = vec![in alloc; 0u32; size]?;
        let order = Vec::with_capacity(alloc, size)?;
        Ok(NumberedChambers { order, number })
    }

    /// Only the start has a number.
    fn begin(&mut self, s: &SymbolRef<'_>, start: u32)
        requires ready { IsReady s.now self.old }
        requires start { IsChamber s.now start }
        ensures ready { IsReady s.now self.new }
        ensures order { self.new.order.items ≡ start ∷ [] }
    {
        while let Some(chamber) = self.order.pop() {
            self.number[chamber as usize - 1] = 0;
        }
        self.order.push_reserved(start);
        self.number[start as usize - 1] = 1;
    }

    /// The number of a chamber, the next one where it has none.
    fn meet(&mut self, s: &SymbolRef<'_>, chamber: u32) -> u32
        requires ready { IsReady s.now self.old }
        requires chamber { IsChamber s.now chamber }
        ensures ready { IsReady s.now self.new }
        ensures meeting { IsMeeting self.old.order.items
            self.new.order.items self.new.number.items chamber result }
    {
        let place = chamber as usize - 1;
        let known = self.number[place];
        if known != 0 {
            return known;
        }
        self.order.push_reserved(chamber);
        let number = self.order.len() as u32;
        self.number[place] = number;
        number
    }

    /// The number of an image, compared with another number after what stands before it.
    fn step<T: Comparer>(
        &mut self,
        s: &SymbolRef<'_>,
        image: u32,
        own: u32,
        so_far: Ordering,
        steps: &mut T,
    ) -> Ordering
        requires ready { IsReady s.now self.old }
        requires image { IsChamber s.now image }
        ensures ready { IsReady s.now self.new }
        ensures step { IsMetAndCompared image own so_far
            self.old.order.items self.new.order.items self.new.number.items result }
        ensures count { T.count steps.new ≤ T.count steps.old + 1 }
    {
        let number = self.meet(s, image);
        so_far.then(steps.compare(number, own))
    }

    /// The three images of the chamber with number k, as long as they do not fall behind.
    fn row<T: Comparer>(
        &mut self,
        s: &SymbolRef<'_>,
        form: &SymbolRef<'_>,
        k: u32,
        so_far: Ordering,
        steps: &mut T,
    ) -> Ordering
        requires ready { IsReady s.now self.old }
        requires traversal { IsTraversal s.now form.now
            self.old.order.items self.old.number.items k
            (λ u. rows u k (suc (s.now.size - k))) so_far }
        requires low { 1 ≤ k }
        requires high { k ≤ s.now.size }
        requires size { form.now.size ≡ s.now.size }
        ensures ready { IsReady s.now self.new }
        ensures ongoing { IsOngoing s.now form.now
            (item self.old.order.items 1) self.new.order.items self.new.number.items (k + 1)
            (λ u. rows u (k + 1) (s.now.size - k)) result }
        ensures count { T.count steps.new ≤ T.count steps.old + 3 }
    {
        let images = s.images(item(&self.order, k));
        let own = form.images(k);
        let zero = self.step(s, images[0], own[0], so_far, steps);
        if zero.is_gt() {
            return zero;
        }
        let one = self.step(s, images[1], own[1], zero, steps);
        if one.is_gt() {
            return one;
        }
        self.step(s, images[2], own[2], one, steps)
    }

    /// The rows of all chambers, as long as they do not fall behind.
    fn rows<T: Comparer>(
        &mut self,
        s: &SymbolRef<'_>,
        form: &SymbolRef<'_>,
        steps: &mut T,
    ) -> Ordering
        requires ready { IsReady s.now self.old }
        requires traversal { IsTraversal s.now form.now
            self.old.order.items self.old.number.items 1 (λ u. rows u 1 s.now.size) Equal }
        requires size { form.now.size ≡ s.now.size }
        ensures ready { IsReady s.now self.new }
        ensures ongoing { IsOngoing s.now form.now
            (item self.old.order.items 1) self.new.order.items self.new.number.items (s.now.size + 1)
            (λ u. []) result }
        ensures count { T.count steps.new ≤ T.count steps.old + 3 * s.now.size }
    {
        let mut so_far = Ordering::Equal;
        for k in 0..s.size() {
            so_far = self.row(s, form, k + 1, so_far, steps);
            if so_far.is_gt() {
                return so_far;
            }
        }
        so_far
    }

    /// The degrees of a pair in the order of the numbers.
    fn degrees<T: Comparer>(
        &self,
        s: &SymbolRef<'_>,
        form: &SymbolRef<'_>,
        pair: Pair,
        steps: &mut T,
    ) -> Ordering
        requires visit { IsVisit s.now.size self.now.order.items self.now.number.items }
        requires full { length self.now.order.items ≡ s.now.size }
        requires size { form.now.size ≡ s.now.size }
        ensures order { (t : Tiling) (f : List ℕ) → IsExtension s.now self.now.order.items t f
            → result ≡ slice_cmp nat_cmp (degree_list t pair) (degree_list form.now pair) }
        ensures count { T.count steps.new ≤ T.count steps.old + s.now.size }
    {
        for k in 0..s.size() {
            let chamber = item(&self.order, k + 1);
            let own = s.degree(pair, chamber);
            let order = steps.compare(own, form.degree(pair, k + 1));
            if order.is_ne() {
                return order;
            }
        }
        Ordering::Equal
    }

    /// How the code by first visits from a start stands to that of a form of the same size.
    pub(crate) fn stand<T: Comparer>(
        &mut self,
        s: &Connected,
        start: u32,
        form: &Connected,
        steps: &mut T,
    ) -> Ordering
        requires ready { IsReady s.now self.old }
        requires start { IsChamber s.now start }
        requires size { form.now.size ≡ s.now.size }
        ensures ready { IsReady s.now self.new }
        ensures standing { IsStanding s.now form.now start result }
        ensures whole { result ≢ Greater
            → IsWhole s.now start self.new.order.items self.new.number.items }
        ensures count { T.count steps.new ≤ T.count steps.old + 5 * s.now.size }
    {
        let from = s.lend();
        let to = form.lend();
        self.begin(&from, start);
        let rows = self.rows(&from, &to, steps);
        if rows.is_ne() {
            return rows;
        }
        let m01 = self.degrees(&from, &to, Pair::Tile, steps);
        if m01.is_ne() {
            return m01;
        }
        self.degrees(&from, &to, Pair::Vertex, steps)
    }

    /// All chambers get the numbers of their first visits from a start.
    pub(crate) fn number_from(&mut self, s: &Connected, start: u32)
        requires ready { IsReady s.now self.old }
        requires start { IsChamber s.now start }
        ensures ready { IsReady s.now self.new }
        ensures whole { IsWhole s.now start self.new.order.items self.new.number.items }
    {
        let from = s.lend();
        self.begin(&from, start);
        for k in 0..from.size() {
            let [zero, one, two] = from.images(item(&self.order, k + 1));
            self.meet(&from, zero);
            self.meet(&from, one);
            self.meet(&from, two);
        }
    }
}
