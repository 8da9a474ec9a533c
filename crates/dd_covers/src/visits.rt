ghost use Rattle.std.specs.Prelude.{◌≡◌, ℕ, ◌+◌, ◌≤◌, List, length, IfOk, OnOk};
ghost use Rattle.dd_model.specs.declared.index.Index.{Index};
ghost use Rattle.dd_cells.specs.Orientation.{IsOriented};
ghost use Rattle.dd_covers.specs.TorusCover.{AreColors};
ghost use Rattle.dd_covers.specs.Visits.{IsVisitOrder, rank};
ghost use Rattle.dd_covers.specs.Visiting.{IsVisiting};

use dd_model::{Index, Memory};
use dd_symbol::{Connected, Symbol, item};
use std::alloc::Global;

/// The first visits from chamber 1, as far as they have come.
#[derive(Drop)]
pub(crate) struct Visits {
    /// The chambers in the order of their first visits.
    order: Vec<u32>,
    /// The number of each chamber in this order, 0 where it has none.
    pub number: Vec<u32>,
    /// For each chamber that has a number, true if it is white, as chamber 1 is.
    pub white: Vec<bool>,
}

impl Visits {
    /// Only chamber 1 is visited.
    fn new(alloc: Global, s: &Connected) -> Result<Visits, Memory>
        requires { IsOriented s.now }
        ensures { IfOk result (λ visits. IsVisiting s.now visits.order.items visits.number.items
            visits.white.items (rank Index.Zero 1)) }
    {
        let size = s.symbol().size() as usize;
        let mut order = Vec::with_capacity(alloc, size)?;
        let mut number = vec![in alloc; 0u32; size]?;
        let mut white = vec![in alloc; false; size]?;
        order.push(1)?;
        number[0] = 1;
        white[0] = true;
        Ok(Visits {
            order,
            number,
            white,
        })
    }

    /// Visits the image of the chamber with number k, which has the other color.
    fn step(&mut self, symbol: &Symbol, i: Index, k: u32) -> Result<(), Memory>
        requires visiting { IsVisiting symbol.now self.old.order.items self.old.number.items
            self.old.white.items (rank i k) }
        requires low { 1 ≤ k }
        requires high { k ≤ length self.old.order.items }
        ensures visiting { OnOk result (IsVisiting symbol.now self.new.order.items
            self.new.number.items self.new.white.items (rank i k + 1)) }
        ensures longer { OnOk result (length self.old.order.items
            ≤ length self.new.order.items) }
    {
        let chamber = item(self.order.as_slice(), k);
        let image = symbol.op(i, chamber);
        let place = image as usize - 1;
        if self.number[place] == 0 {
            self.order.push(image)?;
            self.number[place] = self.order.len() as u32;
            self.white[place] = !self.white[chamber as usize - 1];
        }
        Ok(())
    }
}

/// The numbers of the chambers in the order of their first visits from chamber 1, and their colors.
pub(crate) fn first_visits(alloc: Global, s: &Connected) -> Result<Visits, Memory>
    requires { IsOriented s.now }
    ensures order { IfOk result (λ visits. IsVisitOrder s.now visits.number.items) }
    ensures colors { IfOk result (λ visits. AreColors s.now visits.white.items) }
    ensures whites { IfOk result (λ visits. length visits.white.items ≡ s.now.size) }
{
    let symbol = s.symbol();
    let mut visits = Visits::new(alloc, s)?;
    for k in 0..symbol.size() {
        visits.step(symbol, Index::Zero, k + 1)?;
        visits.step(symbol, Index::One, k + 1)?;
        visits.step(symbol, Index::Two, k + 1)?;
    }
    Ok(visits)
}
